// The mission's three demands as three records: specs/One, Two and Three. Theorems alone, which proofs/Mission cites
// from below.
#![tactic(auto)]
