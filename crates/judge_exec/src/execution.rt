// The rules of an execution row, by the polynomials.
ghost use Rattle.std.specs.Prelude.{◌≡◌};
ghost use Rattle.word.specs.Word.{◌-ₚ◌};
ghost use Rattle.rules.specs.Given.{zero?};
ghost use Rattle.rules.specs.Execution.{ADD, DEREF};
ghost use Rattle.judge_lookups.specs.Joined.{joined};
ghost use Rattle.judge_exec.specs.Parts.{lookups_then, addressed, addresses_then, operations_then, jumps_then, exec_fails};

use bus_tuples::selected;
use form::Instruction;
use judge_lookups::{Memory, first_failing, gated};
use rows::Exec;
use word::{add, mul, sub};

// 1 where an operand is a cell read, 0 where it is an immediate or fp + operand.
fn reads_cell(flag: u32, fp_flag: u32) -> u32
    ensures { result ≡ 1 -ₚ flag -ₚ fp_flag }
{
    if flag == 0 {
        if fp_flag == 0 {
            return 1;
        }
    }
    sub(sub(1, flag), fp_flag)
}

fn lookups(memory: Memory, x: Exec, after: u32) -> u32
    ensures { result ≡ lookups_then (joined memory.entry) x after }
{
    let a = memory.looks_up(x.addrA as usize, x.valueA);
    let b = memory.looks_up(x.addrB as usize, x.valueB);
    let c = memory.looks_up(x.addrC as usize, x.valueC);
    first_failing(&[(2, a), (3, b), (4, c)], after)
}

fn address_holds(flag: u32, fp_flag: u32, addr: u32, fp: u32, operand: u32) -> bool
    ensures { result ≡ zero? (addressed flag fp_flag addr fp operand) }
{
    gated(reads_cell(flag, fp_flag), addr, add(fp, operand))
}

fn addresses(i: Instruction, x: Exec, after: u32) -> u32
    ensures { result ≡ addresses_then i x after }
{
    let a = address_holds(i.fa, i.fpab, x.addrA, x.fp, i.a);
    let b = address_holds(i.fb, i.fpab, x.addrB, x.fp, i.b);
    let c = address_holds(i.fc, i.fpc, x.addrC, x.fp, i.c);
    first_failing(&[(5, a), (6, b), (7, c)], after)
}

// ADD = AUX·(2 - AUX)
fn add_flag(i: Instruction) -> u32
    ensures { result ≡ ADD i }
{
    match i.aux {
        0 => 0,
        1 => 1,
        aux => mul(aux, sub(2, aux)),
    }
}

// DEREF = AUX·(AUX - 1)/2
fn deref_flag(i: Instruction) -> u32
    ensures { result ≡ DEREF i }
{
    match i.aux {
        0 => 0,
        1 => 0,
        2 => 1,
        aux => mul(mul(aux, sub(aux, 1)), 1065353217),
    }
}

fn operations(i: Instruction, x: Exec, a: u32, b: u32, c: u32, after: u32) -> u32
    ensures { result ≡ operations_then i x a b c after }
{
    let deref = deref_flag(i);
    let sums = gated(add_flag(i), b, add(a, c));
    let products = gated(i.mul, b, mul(a, c));
    let target = gated(deref, x.addrB, add(x.valueA, i.b));
    let equal = gated(deref, x.valueB, c);
    first_failing(
        &[(8, sums), (9, products), (10, target), (11, equal)],
        after,
    )
}

fn jumps(j: u32, x: Exec, y: Exec, a: u32, b: u32, c: u32) -> u32
    ensures { result ≡ jumps_then j x y a b c 0 }
{
    let stay = sub(1, j);
    let condition = gated(j, 1, a);
    let dest = gated(j, y.pc, b);
    let frame = gated(j, y.fp, c);
    let forward = gated(stay, y.pc, add(x.pc, 1));
    let same = gated(stay, y.fp, x.fp);
    first_failing(
        &[
            (12, condition),
            (13, dest),
            (14, frame),
            (15, forward),
            (16, same),
        ],
        0,
    )
}

// The first rule after rule 1 that fails, and 0 where all hold.
pub(crate) fn exec_computed(memory: Memory, x: Exec, y: Exec, i: Instruction) -> u32
    ensures { result ≡ exec_fails (joined memory.entry) x y i }
{
    let a = selected(i.fa, i.fpab, i.a, x.valueA, x.fp);
    let b = selected(i.fb, i.fpab, i.b, x.valueB, x.fp);
    let c = selected(i.fc, i.fpc, i.c, x.valueC, x.fp);
    let last = jumps(mul(i.jump, a), x, y, a, b, c);
    lookups(memory, x, addresses(i, x, operations(i, x, a, b, c, last)))
}
