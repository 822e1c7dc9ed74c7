// That what is made is well-formed and reads back, and that the seed matters. Theorems alone, in proofs/.
#![tactic(auto)]
