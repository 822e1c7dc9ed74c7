// M-100, document 02: exactly the 50 possible forms can ever be counted. Theorems alone, in proofs/.
#![tactic(auto)]
