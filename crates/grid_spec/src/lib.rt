// M-100, document 02: form counts over a campaign, as definitions and what follows from them: specs/ and proofs/, no
// function.
#![tactic(auto)]
