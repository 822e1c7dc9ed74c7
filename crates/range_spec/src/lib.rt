// Range checks in a table: definitions in specs/. Document 02, M-108.
#![tactic(auto)]
