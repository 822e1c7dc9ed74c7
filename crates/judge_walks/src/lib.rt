// One walk over each table: the first row with a rule that fails, and what its rows tell on the way, as they are read
// anyway: whether their words are below p, and where the pushes leave the pulls that stand in the same order. Of the
// next execution row only pc and fp are used.
#![tactic(auto)]

ghost use Rattle.std.specs.Prelude.{◌≡◌, [], ◌/◌, ◌%◌, ◌<◌, length};
ghost use Rattle.rules.specs.Sizes.{given, tables};
ghost use Rattle.judge_spec.specs.Judged.{exec_failing, ext_failing};
ghost use Rattle.bus_tuples.specs.Order.{pulled_by};
ghost use Rattle.judge_lookups.specs.Joined.{joined};
ghost use Rattle.judge_walks.specs.Walks.{Tested, first_failing_row, thirty_words};

use bus_tuples::after_row;
use form::instruction_inside;
use inputs::eight_words;
use judge_exec::{exec_failing, exec_rule};
use judge_ext::{ext_failing, ext_rule};
use judge_lookups::{Memory, next_row};
use rows::exec_inside;

// A row with a rule that fails, and the first of its rules that does.
#[derive(Clone, Copy)]
pub struct Failing {
    pub row: usize,
    pub rule: u32,
}

// What the walk over the execution table tells: the first row that fails, and its rule; whether there is none and all
// words are below p; and the extension row up to which the pulls are just what was pushed, or else a number past the
// end.
#[derive(Drop)]
pub struct Executed {
    pub failing: Option<Failing>,
    pub words: bool,
    pub pulled: usize,
}

// The same of the extension table.
#[derive(Drop)]
pub struct Extended {
    pub failing: Option<Failing>,
    pub words: bool,
}

// A table of whole rows.
pub fn exec_walk(program: &[u8], memory: Memory, exec: &[u8], ext: &[u8]) -> Executed
    requires { length exec.now % 32 ≡ 0 }
    ensures tested { Tested (exec_failing (given program.now (joined memory.entry)) (tables exec.now [])) (length exec.now / 32) exec.now result.failing result.words }
    ensures pulled { result.pulled ≡ pulled_by program.now exec.now ext.now (first_failing_row (exec_failing (given program.now (joined memory.entry)) (tables exec.now [])) (length exec.now / 32)) }
{
    let n = exec.len() / 32;
    let mut words = true;
    let mut pulled = 0;
    for r in 0..n {
        let x = exec_inside(exec, 32 * r);
        let y = exec_inside(exec, 32 * next_row(n, r));
        if exec_failing(program, memory, exec, r, x, y) != 0 {
            let rule = exec_rule(program, memory, exec, r);
            return Executed {
                failing: Some(Failing { row: r, rule }),
                words: false,
                pulled,
            };
        }
        words = words & eight_words(exec, 8 * r);
        let i = instruction_inside(program, 48 * (x.pc as usize));
        pulled = after_row(ext, pulled, i, x);
    }
    Executed {
        failing: None,
        words,
        pulled,
    }
}

// Whether the thirty words of extension row r are below p.
fn thirty_words(ext: &[u8], r: usize) -> bool
    requires { r < length ext.now / 120 }
    ensures { result ≡ thirty_words ext.now r }
{
    eight_words(ext, 30 * r)
        & eight_words(ext, 30 * r + 8)
        & eight_words(ext, 30 * r + 16)
        & eight_words(ext, 30 * r + 22)
}

// The same of a table of extension rows.
// stays: a walk of its own; the other follows pulls from row to row, and a closure that does is not seen by proofs.
pub fn ext_walk(memory: Memory, ext: &[u8]) -> Extended
    requires { length ext.now % 120 ≡ 0 }
    ensures { Tested (ext_failing (given [] (joined memory.entry)) (tables [] ext.now)) (length ext.now / 120) ext.now result.failing result.words }
{
    let n = ext.len() / 120;
    let mut words = true;
    for r in 0..n {
        if ext_failing(memory, ext, n, r) != 0 {
            let rule = ext_rule(memory, ext, r);
            return Extended {
                failing: Some(Failing { row: r, rule }),
                words: false,
            };
        }
        words = words & thirty_words(ext, r);
    }
    Extended {
        failing: None,
        words,
    }
}
