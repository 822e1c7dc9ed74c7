// What an extension step asks of its elements.
ghost use Rattle.std.specs.Prelude.{◌≡◌, ◌/◌, ◌<◌, ◌^◌, length};
ghost use Rattle.rules.specs.Sizes.{word_of};
ghost use Rattle.machine.specs.Extension.{left_span, same_element};
ghost use Rattle.tables.specs.Groups.{left_index};
ghost use Rattle.tabler_operands.specs.Elements.{left_of, joined_at, group_exists, result_holds, ElementExists, GroupExists};

use crate::{Group, Joined};
use element_ops::{none, with_term};
use tabler_cells::element_at;

// a_i of its five cells: with be the first alone.
fn left_of(be: bool, v: [u32; 5]) -> [u32; 5]
    ensures { result ≡ left_of be v }
{
    if be {
        return [v[0], 0, 0, 0, 0];
    }
    v
}

// Where a_i starts.
pub fn left_index(be: bool, a: u32, i: u32) -> u32
    requires { left_index be a i < 2 ^ 32 }
    ensures { result ≡ left_index be a i }
{
    if be {
        return a + i;
    }
    a + 5 * i
}

// Element i, and its term joined to what comes after it.
pub fn with_element(memory: &[u8], g: Group, i: u32, rest: [u32; 5]) -> Joined
    requires { ElementExists (length memory.now) g i }
    ensures { result ≡ joined_at (word_of memory.now) g i rest }
{
    let left = element_at(memory, left_index(g.be, g.a, i) as usize);
    let right = element_at(memory, (g.b as usize) + 5 * (i as usize));
    let comp = with_term(g.op, left_of(g.be, left), right, rest);
    Joined { left, right, comp }
}

pub fn same(x: [u32; 5], y: [u32; 5]) -> bool
    ensures { result ≡ same_element x y }
{
    x == y
}

// The five cells at C are the sum or product over all elements, from the last back to the first.
pub fn result_holds(memory: &[u8], g: Group) -> bool
    requires { GroupExists (length memory.now) g }
    ensures { result ≡ result_holds (word_of memory.now) g }
{
    let mut rest = none(g.op);
    for j in (0..g.n).rev() {
        rest = with_element(memory, g, j, rest).comp;
    }
    same(element_at(memory, g.c as usize), rest)
}

fn left_span(be: bool, n: u32) -> usize
    ensures { (result ≡ left_span be n) × (result < 2 ^ 40) }
{
    if be {
        return (n as usize) + 4;
    }
    5 * (n as usize)
}

// All cells of the elements at A and B, and the five at C, exist.
pub fn cells_exist(memory: &[u8], g: Group) -> bool
    ensures { result ≡ group_exists (length memory.now / 4) g }
{
    let size = memory.len() / 4;
    let left = (g.a as usize) + left_span(g.be, g.n);
    let right = (g.b as usize) + 5 * (g.n as usize);
    (left <= size) & (right <= size) & ((g.c as usize) + 5 <= size)
}
