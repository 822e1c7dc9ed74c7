// The rules of an execution row by plain comparisons, with no product of a gate: they say yes on nearly every row of an
// accepted table. Where they say no the row may still be right.
ghost use Rattle.std.specs.Prelude.{◌≡◌, true, ℕ, IfSome};
ghost use Rattle.word.specs.Word.{◌*ₚ◌};
ghost use Rattle.rules.specs.Given.{zero?};
ghost use Rattle.bus_tuples.specs.Selected.{selected_of};
ghost use Rattle.judge_lookups.specs.Joined.{joined};
ghost use Rattle.judge_exec.specs.Parts.{lookups_then, addressed, operations_then, jumps_then, exec_fails};

use form::Instruction;
use judge_lookups::Memory;
use rows::Exec;
use word::{add, mul};

// An operand's selected value where the flags say which it is, it is a word, and rule 5, 6 or 7 holds: a cell is read
// at fp + operand.
fn picked(flag: u32, fp_flag: u32, operand: u32, addr: u32, value: u32, fp: u32) -> Option<u32>
    ensures { IfSome result (λ v. (v ≡ selected_of flag fp_flag operand value fp) × (zero? (addressed flag fp_flag addr fp operand) ≡ true)) }
{
    let selected = match (flag, fp_flag) {
        (0, 0) if addr == add(fp, operand) => value,
        (1, 0) => operand,
        (0, 1) => add(fp, operand),
        _ => return None,
    };
    if selected < 2130706433 {
        Some(selected)
    } else {
        None
    }
}

// Rules 2 to 4.
fn lookups_hold(memory: Memory, x: Exec) -> bool
    ensures { result ≡ true → (after : ℕ) → lookups_then (joined memory.entry) x after ≡ after }
{
    if !memory.looks_up(x.addrA as usize, x.valueA) {
        return false;
    }
    if !memory.looks_up(x.addrB as usize, x.valueB) {
        return false;
    }
    memory.looks_up(x.addrC as usize, x.valueC)
}

// Rules 8 to 11, by AUX: 0 is MUL or none, 1 ADD and 2 DEREF.
// stays: compared in turn; `match` on AUX, and on the flags of extension rows, took 2 in 100 longer for each row.
fn operated(i: Instruction, x: Exec, a: u32, b: u32, c: u32) -> bool
    ensures { result ≡ true → (after : ℕ) → operations_then i x a b c after ≡ after }
{
    if i.aux == 0 {
        return (i.mul == 0) | (b == mul(a, c));
    }
    if i.aux == 1 {
        return (i.mul == 0) & (b == add(a, c));
    }
    (i.aux == 2) & (i.mul == 0) & (x.addrB == add(x.valueA, i.b)) & (x.valueB == c)
}

// J = JUMP·νA
fn jump_taken(jump: u32, a: u32) -> u32
    ensures { result ≡ jump *ₚ a }
{
    if jump == 0 {
        return 0;
    }
    mul(jump, a)
}

// Rules 12 to 16.
fn moved(j: u32, x: Exec, y: Exec, a: u32, b: u32, c: u32) -> bool
    ensures { result ≡ true → jumps_then j x y a b c 0 ≡ 0 }
{
    if j == 0 {
        return (y.pc == add(x.pc, 1)) & (y.fp == x.fp);
    }
    (j == 1) & (a == 1) & (y.pc == b) & (y.fp == c)
}

// Whether these comparisons show that all rules but 1 hold. Lookups come first, while the row's columns are at hand.
pub(crate) fn exec_holds(memory: Memory, x: Exec, y: Exec, i: Instruction) -> bool
    ensures { result ≡ true → exec_fails (joined memory.entry) x y i ≡ 0 }
{
    if !lookups_hold(memory, x) {
        return false;
    }
    let Some(a) = picked(i.fa, i.fpab, i.a, x.addrA, x.valueA, x.fp) else {
        return false;
    };
    let Some(b) = picked(i.fb, i.fpab, i.b, x.addrB, x.valueB, x.fp) else {
        return false;
    };
    let Some(c) = picked(i.fc, i.fpc, i.c, x.addrC, x.valueC, x.fp) else {
        return false;
    };
    if !operated(i, x, a, b, c) {
        return false;
    }
    moved(jump_taken(i.jump, a), x, y, a, b, c)
}
