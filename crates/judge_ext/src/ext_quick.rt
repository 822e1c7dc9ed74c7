// The rules of an extension row by plain comparisons, with no product of a gate: they say yes on nearly every row of an
// accepted table, to rules 6 to 9 where nothing is done. Where they say no the row may still be right.
ghost use Rattle.std.specs.Prelude.{◌≡◌, true, cond, List, ℕ};
ghost use Rattle.word.specs.Word.{◌+ₚ◌, ◌-ₚ◌, ◌*ₚ◌};
ghost use Rattle.rows.specs.declared.Ext.{Ext};
ghost use Rattle.rules.specs.Given.{zero?};
ghost use Rattle.rules.specs.Extension.{selected, comp_tail};
ghost use Rattle.judge_lookups.specs.Joined.{joined};
ghost use Rattle.judge_ext.specs.ExtParts.{ext_lookups_then, bits_then, sames_then, steps_then, accumulates_then, ext_fails};

use judge_lookups::{Memory, five_held};
use rows::Ext;
use word::{add, mul, sub};

// Rules 18 to 21. vA's five cells come before its base, so that the base is compared with what was read already.
#[inline(always)]
fn held(memory: Memory, x: Ext) -> bool
    ensures { result ≡ true → (after : ℕ) → ext_lookups_then (joined memory.entry) x after ≡ after }
{
    five_held(memory.public, memory.rest, x.idxA, x.vA)
        && memory.looks_up(x.idxA as usize, x.base)
        && five_held(memory.public, memory.rest, x.idxB, x.vB)
        && five_held(memory.public, memory.rest, x.idxR, x.res)
}

// A memory in one buffer is told apart, so that the compiler drops the seam there: a row with no operation, as most are
// in a label's tables, is little else than its lookups.
fn lookups_hold(memory: Memory, x: Ext) -> bool
    ensures { result ≡ true → (after : ℕ) → ext_lookups_then (joined memory.entry) x after ≡ after }
{
    if memory.public.len() == 0 {
        return held(Memory::whole(memory.rest), x);
    }
    held(memory, x)
}

// Rules 1 to 5.
fn all_bits(x: Ext) -> bool
    ensures { result ≡ true → (after : ℕ) → bits_then x after ≡ after }
{
    (x.be <= 1) & (x.start <= 1) & (x.add <= 1) & (x.mul <= 1) & (x.peq <= 1)
}

// be + (1 - be)·5
pub(crate) fn stride(be: u32) -> u32
    ensures { result ≡ be +ₚ (1 -ₚ be) *ₚ 5 }
{
    if be == 0 {
        return 5;
    }
    if be == 1 {
        return 1;
    }
    add(be, mul(sub(1, be), 5))
}

// Rules 10 to 16 inside a group.
fn continued(x: Ext, y: Ext) -> bool
    ensures { result ≡ true → (inside after : ℕ) → sames_then inside x y (steps_then inside x y after) ≡ cond (zero? (y.start *ₚ (x.len -ₚ 1))) after 17 }
{
    (sub(x.len, y.len) == 1)
        & (x.be == y.be)
        & (x.add == y.add)
        & (x.mul == y.mul)
        & (x.peq == y.peq)
        & (sub(y.idxA, x.idxA) == stride(x.be))
        & (sub(y.idxB, x.idxB) == 5)
}

// Rules 10 to 17.
// stays: compared in turn, as in `stride`; `match` on both, and on AUX, took 2 in 100 longer for each row.
fn followed(x: Ext, y: Ext) -> bool
    ensures { result ≡ true → sames_then (1 -ₚ y.start) x y (steps_then (1 -ₚ y.start) x y 0) ≡ 0 }
{
    if y.start == 1 {
        return x.len == 1;
    }
    if y.start == 0 {
        return continued(x, y);
    }
    false
}

// Whether these comparisons show that all rules but 6 to 9 hold.
pub(crate) fn others_hold(memory: Memory, x: Ext, y: Ext) -> bool
    ensures { result ≡ true → ext_fails (joined memory.entry) x y ≡ accumulates_then x y (selected x) (comp_tail y) 0 }
{
    if !lookups_hold(memory, x) {
        return false;
    }
    if !all_bits(x) {
        return false;
    }
    followed(x, y)
}

// Whether rules 6 to 9 hold as nothing is done: no operation, and the running result is the result, as in padding.
pub(crate) fn idle(x: Ext) -> bool
    ensures { result ≡ true → (y : Ext) (v tail : List ℕ) (after : ℕ) → accumulates_then x y v tail after ≡ after }
{
    (x.add == 0) & (x.mul == 0) & (x.peq == 0) & (x.comp == x.res)
}
