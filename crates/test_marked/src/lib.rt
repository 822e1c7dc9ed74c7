// No function: the marked numbers of document 01 as a table, specs/, and the claim that the definitions give them,
// proofs/.
#![tactic(auto)]
