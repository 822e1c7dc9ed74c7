// The tabler's answer and both tables at return: definitions alone, in specs/.
#![tactic(auto)]
