// Rows written through their own bytes of a table: a step's execution row, the rows of its group, and the padding.
#![tactic(auto)]

mod execution;
mod group;
mod padding;

pub use execution::put_row;
pub use group::group_holds;
pub use padding::pad;
