// The forms of an accepted table's rows, counted.
ghost use Rattle.std.specs.Prelude.{◌≡◌, true, [], ℕ, ◌+◌, ◌-◌, ◌*◌, ◌/◌, ◌≤◌, ◌<◌, ◌^◌, length, get_or, set};
ghost use Rattle.word.specs.Bytes.{word_at};
ghost use Rattle.form.specs.Form.{well_formed, decode_of};
ghost use Rattle.rules.specs.Sizes.{given, tables};
ghost use Rattle.grid_spec.specs.Forms.{counter_of, counter_at};
ghost use Rattle.grid_spec.specs.Grid.{sum_of, limit, with_rows};

use bus_tuples::ListedRows;
use form::{Instruction, instruction_inside};
use word::word_inside;

// Kinds and modes by the words of a well-formed instruction, with no branch: kinds come in no order that a processor
// could foresee.
// stays: a match on `Kind` and `Mode` is a branch for each row, and a campaign counts every row.
fn kind_number(mul: u32, jump: u32, aux: u32) -> usize
    requires aux_bound { aux ≤ 2 }
    requires aux_bound_2 { 3 * mul + jump + aux * (7 - 3 * aux) ≤ 4 }
    ensures { result ≡ 4 - (3 * mul + jump + aux * (7 - 3 * aux)) }
{
    (4 - 3 * mul - jump - aux * (7 - 3 * aux)) as usize
}

fn mode_number(flag: u32, fp: u32) -> usize
    requires { flag + fp ≤ 1 }
    ensures { (result ≡ 1 + fp - flag) × (result ≤ 2) }
{
    (1 + fp - flag) as usize
}

// Kind slowest and C fastest.
fn counter_of(i: Instruction) -> usize
    requires { well_formed i ≡ true }
    ensures { result ≡ counter_of (decode_of i) }
{
    27 * kind_number(i.mul, i.jump, i.aux)
        + 9 * mode_number(i.fa, i.fpab)
        + 3 * mode_number(i.fb, i.fpab)
        + mode_number(i.fc, i.fpc)
}

// The counter of row r's form.
fn counter_at(rows: &ListedRows<'_>, r: usize) -> usize
    requires { r < length rows.now.exec.now / 32 }
    ensures { (result ≡ counter_at (given rows.now.program.now []) (tables rows.now.exec.now []) r) × (result < 135) }
{
    let pc = word_inside(rows.exec, 32 * r) as usize;
    counter_of(instruction_inside(rows.program, 48 * pc))
}

// The end of the rows that have row r's pc, one after the other, as halting rows do.
fn same_to(exec: &[u8], r: usize) -> usize
    requires { r < length exec.now / 32 }
    ensures { (r < result)
        × (result ≤ length exec.now / 32)
        × ((j : ℕ) → r ≤ j → j < result → word_at exec.now (32 * j) ≡ word_at exec.now (32 * r)) }
{
    let height = exec.len() / 32;
    let pc = word_inside(exec, 32 * r);
    for end in r + 1..height {
        if word_inside(exec, 32 * end) != pc {
            return end;
        }
    }
    height
}

// In the grid where it stands: by value it would be copied for each row.
fn add_rows(grid: &mut [u64; 135], k: usize, rows: usize)
    requires { (k < 135) × (get_or grid.old k 0 + rows < 2 ^ 63) }
    ensures { grid.new ≡ set grid.old k (get_or grid.old k 0 + rows) }
{
    grid[k] += rows as u64;
}

// One more for each row, halting rows too; rows of one instruction are counted together.
pub(crate) fn count_rows(grid: &mut [u64; 135], rows: &ListedRows<'_>)
    requires { sum_of grid.old + length rows.now.exec.now / 32 ≤ limit }
    ensures { grid.new ≡ with_rows grid.old (given rows.now.program.now []) (tables rows.now.exec.now []) }
{
    let height = rows.exec.len() / 32;
    let mut r = 0;
    // stays: a step goes over all rows of one pc, which no range and no iterator of std does.
    while r < height {
        let end = same_to(rows.exec, r);
        add_rows(grid, counter_at(rows, r), end - r);
        r = end;
    }
}
