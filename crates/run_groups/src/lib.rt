// Theorems about the extension table: what its constraints say of a group of rows, and that the tabler's rows meet
// them. In proofs/.
#![tactic(auto)]
