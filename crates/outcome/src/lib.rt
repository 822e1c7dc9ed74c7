// What a step of either machine comes to: definitions alone, in specs/.
#![tactic(auto)]
