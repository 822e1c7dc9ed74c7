// The rules of an extension row, by the polynomials.
ghost use Rattle.std.specs.Prelude.{◌≡◌, [], ◌/◌, ◌<◌, length};
ghost use Rattle.word.specs.Word.{◌-ₚ◌, ◌*ₚ◌};
ghost use Rattle.rules.specs.Given.{zero?};
ghost use Rattle.rules.specs.Sizes.{given, tables};
ghost use Rattle.judge_spec.specs.Judged.{ext_failing};
ghost use Rattle.judge_lookups.specs.Joined.{joined};
ghost use Rattle.judge_ext.specs.ExtParts.{ext_lookups_then, bits_then, sames_then, steps_then};

use crate::accumulation::accumulates;
use crate::ext_quick::{idle, stride};
use judge_lookups::{Memory, first_failing, gated, next_row};
use rows::{Ext, ext_inside};
use word::sub;

fn ext_lookups(memory: Memory, x: Ext, after: u32) -> u32
    ensures { result ≡ ext_lookups_then (joined memory.entry) x after }
{
    let base = memory.looks_up(x.idxA as usize, x.base);
    let a = memory.looks_up_five(x.idxA, x.vA);
    let b = memory.looks_up_five(x.idxB, x.vB);
    let c = memory.looks_up_five(x.idxR, x.res);
    first_failing(&[(18, base), (19, a), (20, b), (21, c)], after)
}

// x·(1 - x) = 0
fn is_bit(x: u32) -> bool
    ensures { result ≡ zero? (x *ₚ (1 -ₚ x)) }
{
    gated(x, 1, x)
}

fn bits(x: Ext, after: u32) -> u32
    ensures { result ≡ bits_then x after }
{
    let be = is_bit(x.be);
    let start = is_bit(x.start);
    let add_flag = is_bit(x.add);
    let mul_flag = is_bit(x.mul);
    let peq_flag = is_bit(x.peq);
    first_failing(
        &[
            (1, be),
            (2, start),
            (3, add_flag),
            (4, mul_flag),
            (5, peq_flag),
        ],
        after,
    )
}

fn sames(inside: u32, x: Ext, y: Ext, after: u32) -> u32
    ensures { result ≡ sames_then inside x y after }
{
    let len = gated(inside, sub(x.len, y.len), 1);
    let be = gated(inside, x.be, y.be);
    let add_flag = gated(inside, x.add, y.add);
    let mul_flag = gated(inside, x.mul, y.mul);
    let peq_flag = gated(inside, x.peq, y.peq);
    first_failing(
        &[
            (10, len),
            (11, be),
            (12, add_flag),
            (13, mul_flag),
            (14, peq_flag),
        ],
        after,
    )
}

fn steps(inside: u32, x: Ext, y: Ext) -> u32
    ensures { result ≡ steps_then inside x y 0 }
{
    let a = gated(inside, sub(y.idxA, x.idxA), stride(x.be));
    let b = gated(inside, sub(y.idxB, x.idxB), 5);
    let last = gated(y.start, x.len, 1);
    first_failing(&[(15, a), (16, b), (17, last)], 0)
}

// The first rule that fails on row r, and 0 where all hold, by the polynomials alone.
pub fn ext_rule(memory: Memory, ext: &[u8], r: usize) -> u32
    requires { r < length ext.now / 120 }
    ensures { result ≡ ext_failing (given [] (joined memory.entry)) (tables [] ext.now) r }
{
    let x = ext_inside(ext, 120 * r);
    let y = ext_inside(ext, 120 * next_row(ext.len() / 120, r));
    let inside = sub(1, y.start);
    let inner = sames(inside, x, y, steps(inside, x, y));
    let sums = if idle(x) {
        inner
    } else {
        accumulates(ext, r, inner)
    };
    ext_lookups(memory, x, bits(x, sums))
}
