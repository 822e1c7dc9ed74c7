// Three rows of an accepted table, by the words of their instructions. Each is well-formed, so AUX alone tells an ADD
// and a DEREF.
ghost use Rattle.std.specs.Prelude.{◌≡◌, true, [], ◌+◌, ◌*◌, ◌/◌, ◌≤◌, ◌<◌, ◌^◌, length};
ghost use Rattle.form.specs.Form.{well_formed};
ghost use Rattle.form.specs.Instruction.{instruction_at};
ghost use Rattle.rows.specs.Rows.{exec_at};
ghost use Rattle.rules.specs.Sizes.{given, tables};
ghost use Rattle.range_spec.specs.Finds.{derefs, adds, found_at, bound_at};

use bus_tuples::ListedRows;
use word::word_inside;

// Where the instruction of row r starts.
fn start_of(exec: &[u8], r: usize) -> usize
    requires { r < length exec.now / 32 }
    ensures { (result ≡ 48 * (exec_at exec.now (32 * r)).pc) × (result < 2 ^ 40) }
{
    48 * (word_inside(exec, 32 * r) as usize)
}

// A DEREF of cell x with β 0.
fn derefs(program: &[u8], at: usize, x: u32) -> bool
    requires at_in_bounds { at + 48 ≤ length program.now }
    requires at_value { well_formed (instruction_at program.now at) ≡ true }
    ensures { result ≡ derefs x (instruction_at program.now at) }
{
    (word_inside(program, at + 40) == 2)
        & (word_inside(program, at) == x)
        & (word_inside(program, at + 4) == 0)
}

// An ADD of two cells to an immediate.
fn adds(program: &[u8], at: usize) -> bool
    requires at_in_bounds { at + 48 ≤ length program.now }
    requires at_value { well_formed (instruction_at program.now at) ≡ true }
    ensures { result ≡ adds (instruction_at program.now at) }
{
    (word_inside(program, at + 40) == 1)
        & (word_inside(program, at + 12) == 0)
        & (word_inside(program, at + 16) == 1)
        & (word_inside(program, at + 20) == 0)
        & (word_inside(program, at + 24) == 0)
}

// Most rows are known by one word not to be a find.
pub(crate) fn found_at(rows: &ListedRows<'_>, r: usize) -> bool
    requires { r + 2 < length rows.now.exec.now / 32 }
    ensures { result ≡ found_at (given rows.now.program.now []) (tables rows.now.exec.now []) r }
{
    let program = rows.program;
    let first = start_of(rows.exec, r);
    if word_inside(program, first + 40) != 2 {
        return false;
    }
    let second = start_of(rows.exec, r + 1);
    let x = word_inside(program, second);
    let j = word_inside(program, second + 8);
    let last = start_of(rows.exec, r + 2);
    derefs(program, first, x) & adds(program, second) & derefs(program, last, j)
}

// The ADD's B, plus 1.
pub(crate) fn bound_at(rows: &ListedRows<'_>, r: usize) -> u32
    requires r_in_bounds { r + 2 < length rows.now.exec.now / 32 }
    requires r_bound { bound_at (given rows.now.program.now []) (tables rows.now.exec.now []) r < 2 ^ 32 }
    ensures { result ≡ bound_at (given rows.now.program.now []) (tables rows.now.exec.now []) r }
{
    word_inside(rows.program, start_of(rows.exec, r + 1) + 4) + 1
}
