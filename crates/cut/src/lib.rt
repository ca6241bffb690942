// Rows of things cut into lines, each as full as it goes: definitions and laws only (specs/).
#![tactic(auto)]
