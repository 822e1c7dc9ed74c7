// Streams from one seed: definitions in specs/. Document 02, M-106.
#![tactic(auto)]

// What a number of draws does to a state, modulo 2^64: times the multiplier, plus the increment.
#[derive(Clone, Copy)]
pub struct Pair {
    pub multiplier: u64,
    pub increment: u64,
}
