// What a step of the tabler asks of the memory: its operands, each looked at once, and the elements of its group.
#![tactic(auto)]

mod elements;
mod look;

pub use elements::{cells_exist, left_index, result_holds, same, with_element};
use form::Op;
pub use look::look_all;

// A state of the machine.
#[derive(Clone, Copy, PartialEq, Eq)]
pub struct State {
    pub pc: u32,
    pub fp: u32,
}

// What a step and its row ask of an operand.
// stays: `looked_of` gives address, cell and value of an operand that is not legal too, so an Option has no place here.
#[derive(Clone, Copy)]
pub struct Looked {
    pub legal: bool,
    pub addr: u32,
    pub cell: u32,
    pub value: u32,
}

#[derive(Clone, Copy)]
pub struct Operands {
    pub a: Looked,
    pub b: Looked,
    pub c: Looked,
}

// What an extension step works on: n elements at a and at b, and the result at c.
#[derive(Clone, Copy)]
pub struct Group {
    pub op: Op,
    pub be: bool,
    pub n: u32,
    pub a: u32,
    pub b: u32,
    pub c: u32,
}

// Element i of a group: a_i as five cells, b_i, and the term joined to what comes after it.
#[derive(Clone, Copy)]
pub struct Joined {
    pub left: [u32; 5],
    pub right: [u32; 5],
    pub comp: [u32; 5],
}
