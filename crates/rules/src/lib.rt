// The constraints of draft 0.6.0, as definitions alone, and what a lookup that fails found: the cell's word, and the
// table's.
#![tactic(auto)]

#[derive(Drop)]
pub struct Found {
    pub expected: u32,
    pub found: u32,
}
