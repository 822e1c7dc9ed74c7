// The rules of one execution row: the first that fails, and what its lookup found.
#![tactic(auto)]

mod exec_quick;
mod execution;
mod finding;

ghost use Rattle.std.specs.Prelude.{◌≡◌, [], ◌*◌, ◌/◌, ◌<◌, length};
ghost use Rattle.rows.specs.Rows.{exec_at};
ghost use Rattle.rules.specs.Given.{next};
ghost use Rattle.rules.specs.Sizes.{given, tables};
ghost use Rattle.judge_spec.specs.Judged.{exec_failing};
ghost use Rattle.judge_lookups.specs.Joined.{joined};

use exec_quick::exec_holds;
use execution::exec_computed;
pub use finding::exec_found;
use form::instruction_inside;
use judge_lookups::{Memory, next_row};
use rows::{Exec, exec_inside};

// The first execution rule that fails on row r of a table, x, paired with y, and 0 where all hold. Only where
// comparisons say no are the polynomials taken; they read the rows again, so that the loop over rows keeps x and y
// near.
// stays: a number, and 0 where all hold, as the definition `exec_failing` of judge_spec, specs/Judged, has it.
pub fn exec_failing(program: &[u8], memory: Memory, exec: &[u8], r: usize, x: Exec, y: Exec) -> u32
    requires r_in_bounds { r < length exec.now / 32 }
    requires x_value { (x ≡ exec_at exec.now (32 * r)) × (y ≡ exec_at exec.now (32 * next (length exec.now / 32) r)) }
    ensures { result ≡ exec_failing (given program.now (joined memory.entry)) (tables exec.now []) r }
{
    let pc = x.pc as usize;
    if program.len() / 48 <= pc {
        return 1;
    }
    if exec_holds(memory, x, y, instruction_inside(program, 48 * pc)) {
        return 0;
    }
    exec_rule(program, memory, exec, r)
}

// The same by the polynomials alone.
pub fn exec_rule(program: &[u8], memory: Memory, exec: &[u8], r: usize) -> u32
    requires { r < length exec.now / 32 }
    ensures { result ≡ exec_failing (given program.now (joined memory.entry)) (tables exec.now []) r }
{
    let x = exec_inside(exec, 32 * r);
    let y = exec_inside(exec, 32 * next_row(exec.len() / 32, r));
    let at = x.pc as usize;
    if at < program.len() / 48 {
        return exec_computed(memory, x, y, instruction_inside(program, 48 * at));
    }
    1
}
