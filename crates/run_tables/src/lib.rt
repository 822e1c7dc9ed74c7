// Theorems: the tables of a legal run that stays satisfy the constraints. In proofs/.
#![tactic(auto)]
