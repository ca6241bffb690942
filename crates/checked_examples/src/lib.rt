// The checked examples that the paper marks P: specs/Cases.antt.
#![tactic(auto)]
