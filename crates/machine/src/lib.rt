// The machine without flags: definitions alone, in specs/.
#![tactic(auto)]
