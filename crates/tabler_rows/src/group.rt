// The extension rows of a step's group, written as its result is computed.
ghost use Rattle.std.specs.Prelude.{◌≡◌, ◌+◌, ◌*◌, ◌≤◌, ◌<◌, length};
ghost use Rattle.rules.specs.Sizes.{word_of};
ghost use Rattle.machine.specs.Extension.{element_at};
ghost use Rattle.tabler_operands.specs.Elements.{result_from, result_holds, ElementExists, GroupExists};
ghost use Rattle.tabler_rows.specs.Placed.{placed, row_in, group_bytes};

use element_ops::none;
use form::Op;
use rows::{Ext, put_ext};
use tabler_cells::element_at;
use tabler_operands::{Group, Joined, left_index, same, with_element};

// Row j of a group: rest is what the elements after it come to, res the five cells at C.
fn group_row(memory: &[u8], g: Group, j: u32, rest: [u32; 5], res: [u32; 5]) -> Ext
    requires j_lt_n { (j < g.n) × ElementExists (length memory.now) g j }
    requires rest_value { (rest ≡ result_from (word_of memory.now) g (j + 1)) × (res ≡ element_at (word_of memory.now) g.c) }
    ensures { result ≡ row_in (word_of memory.now) g j }
{
    let Joined { left, right, comp } = with_element(memory, g, j, rest);
    Ext {
        start: u32::from(j == 0),
        add: u32::from(g.op == Op::Add),
        mul: u32::from(g.op == Op::Mul),
        peq: u32::from(g.op == Op::Peq),
        len: g.n - j,
        idxA: left_index(g.be, g.a, j),
        idxB: g.b + 5 * j,
        idxR: g.c,
        be: u32::from(g.be),
        base: left[0],
        vA: left,
        vB: right,
        comp,
        res,
    }
}

// A group's rows, from the last back to the first, each through its own bytes, and whether its result holds.
fn put_group(memory: &[u8], g: Group, part: &mut [u8]) -> bool
    requires { (length part.old ≡ 120 * g.n) × GroupExists (length memory.now) g }
    ensures value { result ≡ result_holds (word_of memory.now) g }
    ensures part_after { part.new ≡ group_bytes (word_of memory.now) g }
{
    let res = element_at(memory, g.c as usize);
    let mut comp = none(g.op);
    for j in (0..g.n).rev() {
        let row = group_row(memory, g, j, comp, res);
        comp = row.comp;
        let at = 120 * (j as usize);
        let end = at + 120;
        put_ext(&mut part[at..end], row);
    }
    same(res, comp)
}

// The group after the rows filled, and whether its result holds.
pub fn group_holds(memory: &[u8], g: Group, filled: usize, ext: &mut [u8]) -> bool
    requires { (120 * filled + 120 * g.n ≤ length ext.old) × GroupExists (length memory.now) g }
    ensures value { result ≡ result_holds (word_of memory.now) g }
    ensures ext_after { ext.new ≡ placed ext.old (120 * filled) (120 * filled + 120 * g.n) (group_bytes (word_of memory.now) g) }
{
    let from = 120 * filled;
    let to = from + 120 * (g.n as usize);
    put_group(memory, g, &mut ext[from..to])
}
