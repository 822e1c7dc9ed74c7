// The judge on a memory in two buffers, public words and the rest: definitions in specs/. Document 02, M-109.
#![tactic(auto)]
