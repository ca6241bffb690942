// The grammar of address fields in the paper's words, that address_list takes exactly what it makes, and that address_pieces writes for a
// field exactly what it says: specs/.
#![tactic(auto)]
