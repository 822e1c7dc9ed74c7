// That every recipe makes what it made before there were profiles, and version 1 what it made before there were others;
// and a run that changes frames, by hand. Theorems alone, in proofs/.
#![tactic(auto)]
