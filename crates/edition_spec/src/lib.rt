// M-102, document 02: programs of draft 0.5.0 in the form of draft 0.6.0, as definitions and what follows from them:
// specs/ and proofs/, no function.
#![tactic(auto)]
