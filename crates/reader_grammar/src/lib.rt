// What a reader of request 6 must believe, as grammars, and that the functions of the reader's contracts are these: definitions and laws only (specs/).
#![tactic(auto)]
