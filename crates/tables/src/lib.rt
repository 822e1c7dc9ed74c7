// The tables of a run: definitions alone, in specs/.
#![tactic(auto)]
