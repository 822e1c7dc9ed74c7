// What a listing is, and what its writer and reader owe, as definitions: specs/ and no function. Document 02, M-105.
#![tactic(auto)]
