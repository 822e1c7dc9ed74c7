// The place of a text among valid ones, and texts field by field: definitions in specs/, theorems in proofs/.
#![tactic(auto)]
