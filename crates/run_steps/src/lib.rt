// Theorems about the execution table: its rules on a row say that the row is a step of the machine, and the tabler's
// rows meet them. In proofs/.
#![tactic(auto)]
