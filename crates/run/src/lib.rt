// Demand 3: an accepted table is one run, and each run that stays is written as accepted tables. Theorems alone, in
// proofs/.
#![tactic(auto)]
