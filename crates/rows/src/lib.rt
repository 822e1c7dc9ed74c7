// The rows of the two tables, as structs, read from their bytes and written back.
#![tactic(auto)]

mod execution;
mod extension;
mod words;

pub use execution::{exec_inside, put_exec};
pub use extension::{ext_inside, put_ext};
pub use words::put_words;

// A row of the execution table: 8 words in this order.
#[derive(Clone, Copy)]
pub struct Exec {
    pub pc: u32,
    pub fp: u32,
    pub addrA: u32,
    pub addrB: u32,
    pub addrC: u32,
    pub valueA: u32,
    pub valueB: u32,
    pub valueC: u32,
}

// A row of the extension table: ten base columns, then four elements.
#[derive(Clone, Copy)]
pub struct Ext {
    pub start: u32,
    pub add: u32,
    pub mul: u32,
    pub peq: u32,
    pub len: u32,
    pub idxA: u32,
    pub idxB: u32,
    pub idxR: u32,
    pub be: u32,
    pub base: u32,
    pub vA: [u32; 5],
    pub vB: [u32; 5],
    pub comp: [u32; 5],
    pub res: [u32; 5],
}
