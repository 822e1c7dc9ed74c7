// The result of an extension instruction over the drawn cells.
ghost use Rattle.std.specs.Prelude.{◌≡◌, ◌+◌, ◌≤◌, ◌<◌};
ghost use Rattle.machine.specs.Extension.{element_at, left_at, right_at, term_of, joined, extension_result};
ghost use Rattle.maker_spec.specs.Made.{op_picked, be_picked, count_picked, left_picked, right_picked};
ghost use Rattle.maker.specs.Inner.{cell_in};

use element_ops::{none, with_term};
use form::Op;

// floor(c/2) mod 3 picks add, mul, peq.
pub(crate) fn op_of(c: u32) -> Op
    ensures { result ≡ op_picked c }
{
    match c / 2 % 3 {
        0 => Op::Add,
        1 => Op::Mul,
        _ => Op::Peq,
    }
}

fn element_at(cells: &[u32; 32], k: usize) -> [u32; 5]
    requires { k + 4 < 32 }
    ensures { result ≡ element_at (cell_in cells.now) k }
{
    [
        cells[k],
        cells[k + 1],
        cells[k + 2],
        cells[k + 3],
        cells[k + 4],
    ]
}

// a_i: five cells, or with be the one cell.
fn left_at(cells: &[u32; 32], be: bool, a: usize, i: usize) -> [u32; 5]
    requires { (a ≤ 15) × (i ≤ 1) }
    ensures { result ≡ left_at (cell_in cells.now) be a i }
{
    if be {
        return [cells[a + i], 0, 0, 0, 0];
    }
    element_at(cells, a + 5 * i)
}

// The term of element i, joined to what comes after it.
fn with_element(
    cells: &[u32; 32],
    op: Op,
    be: bool,
    a: usize,
    b: usize,
    i: usize,
    rest: [u32; 5],
) -> [u32; 5]
    requires { (a ≤ 15) × (b ≤ 19) × (i ≤ 1) }
    ensures { result ≡ joined op (term_of op (left_at (cell_in cells.now) be a i) (right_at (cell_in cells.now) b i)) rest }
{
    let x = left_at(cells, be, a, i);
    let y = element_at(cells, b + 5 * i);
    with_term(op, x, y, rest)
}

// The one or two elements that an extension's draws name.
pub(crate) fn result_of(cells: &[u32; 32], a: u32, c: u32) -> [u32; 5]
    ensures { result ≡ extension_result (cell_in cells.now) (op_picked c) (be_picked c) (left_picked a) (right_picked a) 0 (count_picked c) }
{
    let op = op_of(c);
    let be = c / 6 % 2 == 1;
    let left = (a % 16) as usize;
    let right = (16 + a % 4) as usize;
    let last = none(op);
    if c % 2 == 1 {
        let second = with_element(cells, op, be, left, right, 1, last);
        return with_element(cells, op, be, left, right, 0, second);
    }
    with_element(cells, op, be, left, right, 0, last)
}
