// Form counts over a campaign, document 02, M-100: the grid, and what a table adds to it.
#![tactic(auto)]

mod counting;

ghost use Rattle.std.specs.Prelude.{◌≡◌, ◌+◌, leb};
ghost use Rattle.grid_spec.specs.Grid.{fresh, sum_of, limit, count_answer, count_grid};

use answer::{Answer, Refusal};
use bus_tuples::ListedRows;
use counting::count_rows;

// Every counter is zero.
pub fn fresh() -> [u64; 135]
    ensures { result ≡ fresh }
{
    [0; 135]
}

// Whether the total and the rows to come stay within the limit. The total may be any number, so it is taken from the
// limit and never summed.
fn has_room(grid: &[u64; 135], rows: u64) -> bool
    ensures { result ≡ leb (sum_of grid.now + rows) limit }
{
    let Some(mut left) = 9223372036854775807u64.checked_sub(rows) else {
        return false;
    };
    for x in grid {
        match left.checked_sub(*x) {
            Some(rest) => left = rest,
            None => return false,
        }
    }
    true
}

// One more for each execution row of an accepted table. GRID is tested last, and a refusal leaves the grid as it came.
pub fn count(
    grid: &mut [u64; 135],
    program: &[u8],
    memory: &[u8],
    pc: u64,
    fp: u64,
    exec: &[u8],
    ext: &[u8],
) -> Answer
    ensures value { result ≡ count_answer grid.old (record {
      program = program.entry.now;
      memory = memory.now;
      exec = exec.now;
      ext = ext.now;
      pc = pc;
      fp = fp;
    }) }
    ensures grid_after { grid.new ≡ count_grid grid.old (record {
      program = program.entry.now;
      memory = memory.now;
      exec = exec.now;
      ext = ext.now;
      pc = pc;
      fp = fp;
    }) }
{
    judge::judge(program, memory, pc, fp, exec, ext)?;
    let rows = ListedRows { program, exec };
    if !has_room(grid, (exec.len() / 32) as u64) {
        return Err(Refusal::Grid);
    }
    count_rows(grid, &rows);
    Ok(())
}
