// Tuples of the bus: what a row pushes or pulls, how often, and the pulls in the order in which they stand.
#![tactic(auto)]

mod operand;
mod order;
mod row;
mod times;
mod tuple;

pub use operand::selected;
pub use order::{after_pull, after_row, next_pull};
pub use row::ListedRows;
pub use times::{is_precompile, pull_times};
pub use tuple::{hash, pushed_tuple, tuple_at};

// A tuple that a row pushes or pulls on the bus.
#[derive(Clone, Copy, PartialEq, Eq)]
pub struct Sent {
    pub aux: u32,
    pub left: u32,
    pub right: u32,
    pub out: u32,
}
