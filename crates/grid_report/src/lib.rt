// A grid's printed report: document 02, M-100.
#![tactic(auto)]

mod names;

ghost use Rattle.std.specs.Prelude.{◌≡◌, ◌≤◌, ◌<◌, length};
ghost use Rattle.answer.specs.Answers.{answer_of, number_of};
ghost use Rattle.lines.specs.Putting.{Room, Put};
ghost use Rattle.grid_spec.specs.Report.{line_at, report_of, report_answer, report_length, reported_in};

use answer::Refusal;
use lines::Out;
use names::put_name;

// A counter's line; a zero counter has none.
fn put_counter(grid: &[u64; 135], k: usize, out: &mut Out)
    requires { (k < 135) × Room out.old (line_at grid.now k) }
    ensures { Put out.old (line_at grid.now k) out.new }
{
    let number = grid[k];
    if number == 0 {
        return;
    }
    put_name(k, out);
    out.put_line(b"", number);
}

// The report's length: each line is put once where nobody reads it, so that lengths have no code of their own.
fn needed(grid: &[u64; 135]) -> usize
    ensures { (result ≡ length (report_of grid.now)) × (result ≤ 5076) }
{
    let mut longest = [0u8; 42];
    let mut size = 0;
    for k in 0..135 {
        let mut out = Out {
            bytes: &mut longest,
            at: 0,
        };
        put_counter(grid, k, &mut out);
        size += out.at;
    }
    size
}

// All lines, each behind the one before it.
fn put_lines(grid: &[u64; 135], out: &mut Out)
    requires { Room out.old (report_of grid.now) }
    ensures { Put out.old (report_of grid.now) out.new }
{
    for k in 0..135 {
        put_counter(grid, k, out);
    }
}

// A grid's report, and its length: document 02, M-100. A refusal changes no byte.
pub fn report(grid: &[u64; 135], text: &mut [u8]) -> Result<u64, Refusal>
    ensures value { answer_of result ≡ report_answer grid.now (length text.old) }
    ensures written { number_of result ≡ report_length grid.now (length text.old) }
    ensures text_after { text.new ≡ reported_in grid.now text.old }
{
    let size = needed(grid);
    if text.len() < size {
        return Err(Refusal::Size {
            part: 5,
            place: size as u32,
        });
    }
    let mut out = Out { bytes: text, at: 0 };
    put_lines(grid, &mut out);
    Ok(size as u64)
}
