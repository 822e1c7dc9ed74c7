// Cells and elements of the memory.
#![tactic(auto)]

ghost use Rattle.std.specs.Prelude.{◌≡◌, ◌+◌, ◌/◌, ◌≤◌, length};
ghost use Rattle.rules.specs.Sizes.{word_of};
ghost use Rattle.machine.specs.Extension.{element_at};

use std::array;
use word::{word_at, word_inside};

// A cell, and 0 past the last: an operand that is not legal is looked at too.
pub fn cell(memory: &[u8], k: usize) -> u32
    ensures { result ≡ word_of memory.now k }
{
    if k < memory.len() / 4 {
        return word_inside(memory, 4 * k);
    }
    if memory.len() / 4 < k {
        return 0;
    }
    word_at(memory, 4 * k)
}

// The element in five cells from k on, which exist.
pub fn element_at(memory: &[u8], k: usize) -> [u32; 5]
    requires { k + 5 ≤ length memory.now / 4 }
    ensures { result ≡ element_at (word_of memory.now) k }
{
    array::from_fn(|i| word_inside(memory, 4 * (k + i)))
}
