// Recipes and their labels: documents 01, "Draws, recipe, label", and 02, M-103.
#![tactic(auto)]

mod reader;
mod writer;

pub use reader::read_label;
pub use writer::{in_range, write_label};

// What the maker makes a program and a memory of.
#[derive(Clone, Copy)]
pub struct Recipe {
    pub version: u32,
    pub seed: u64,
    pub m: u32,
    pub n: u32,
}
