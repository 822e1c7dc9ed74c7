// The judge's answer as a definition, and what an acceptance and a refusal mean: specs/ and proofs/, no function.
#![tactic(auto)]
