// An instruction's 12 words, and its form: one of five kinds with three operands, or malformed.
#![tactic(auto)]

mod data;
mod kinds;
mod known;
mod words;

pub use data::data_word;
pub use kinds::well_formed;
pub use known::decode_known;
pub use words::instruction_inside;

// The 12 words, as document 01 orders them.
#[derive(Clone, Copy)]
pub struct Instruction {
    pub a: u32,
    pub b: u32,
    pub c: u32,
    pub fa: u32,
    pub fb: u32,
    pub fc: u32,
    pub fpc: u32,
    pub fpab: u32,
    pub mul: u32,
    pub jump: u32,
    pub aux: u32,
    pub data: u32,
}

// What an extension instruction does with its elements.
#[derive(Clone, Copy, PartialEq, Eq)]
pub enum Op {
    Add,
    Mul,
    Peq,
}

// An operand is an immediate, the cell at fp + offset, or fp + offset itself.
#[derive(Clone, Copy)]
pub enum Mode {
    Immediate,
    Cell,
    Frame,
}

#[derive(Clone, Copy)]
pub struct Operand {
    pub mode: Mode,
    pub word: u32,
}

#[derive(Clone, Copy)]
pub enum Kind {
    Add,
    Mul,
    Deref,
    Jump,
    Extension { op: Op, be: bool, n: u32 },
}

#[derive(Clone, Copy)]
pub struct Form {
    pub kind: Kind,
    pub a: Operand,
    pub b: Operand,
    pub c: Operand,
}
