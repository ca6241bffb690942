// Lists of bytes: definitions and laws only (specs/).
#![tactic(auto)]
