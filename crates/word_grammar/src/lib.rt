// An encoded word as the reader takes it, as a grammar, and that word_reader reads by it: definitions and laws only (specs/).
#![tactic(auto)]
