// The machine of draft 0.5.0 as definitions, and document 02's reading of the draft as theorems about them: specs/ and
// proofs/, no function.
#![tactic(auto)]

// An instruction's 14 words, in the order of draft 0.5.0, 3.1.3.
#[derive(Clone, Copy)]
pub struct Encoded {
    pub a: u32,
    pub b: u32,
    pub c: u32,
    pub fa: u32,
    pub fb: u32,
    pub fc: u32,
    pub add: u32,
    pub mul: u32,
    pub deref: u32,
    pub jump: u32,
    pub precompile: u32,
    pub index: u32,
    pub aux1: u32,
    pub aux2: u32,
}
