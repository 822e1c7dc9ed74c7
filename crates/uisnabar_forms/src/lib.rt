// Form counts as C calls give them: document 02, M-100. The library's functions hand on to these.
#![tactic(auto)]

ghost use Rattle.std.specs.Prelude.{◌≡◌, cond, ◌&&◌, eqb, length};
ghost use Rattle.answer.specs.Verdicts.{accepted};
ghost use Rattle.rules.specs.Sizes.{parts_of};
ghost use Rattle.reply.specs.Reply.{answer_bytes};
ghost use Rattle.grid_bytes.specs.GridBytes.{grid_bytes};
ghost use Rattle.uisnabar_forms.specs.CountCall.{count_returned, count_grid_left, count_answer_left};
ghost use Rattle.uisnabar_forms.specs.ReportCall.{report_returned, report_text_left, report_written_left, report_answer_left};

use answer::{Answer, accepted};
use grid::count;
use grid_bytes::{read_grid, write_grid};
use grid_report::report;
use reply::{misfit, reply, tell_number};

// Whether the buffers of fixed length have it.
fn count_fits(grid: usize, answer: usize) -> bool
    ensures { result ≡ (eqb grid 1080 && eqb answer answer_bytes) }
{
    (grid == 1080) & (answer == 24)
}

fn report_fits(grid: usize, written: usize, answer: usize) -> bool
    ensures { result ≡ (eqb grid 1080 && eqb written 8 && eqb answer answer_bytes) }
{
    (grid == 1080) & (written == 8) & (answer == 24)
}

// The grid's bytes, where the answer is ACCEPTED.
fn put_counted(bytes: &mut [u8], a: Answer, grid: [u64; 135])
    requires { length bytes.old ≡ 1080 }
    ensures { bytes.new ≡ cond (accepted a) (grid_bytes grid) bytes.old }
{
    if accepted(a) {
        write_grid(bytes, grid);
    }
}

// A table counted into a grid of bytes. ANSWER comes first, so nothing is judged for a caller who cannot be told.
pub fn count_call(
    program: &[u8],
    memory: &[u8],
    pc: u64,
    fp: u64,
    exec: &[u8],
    ext: &[u8],
    grid: &mut [u8],
    answer: &mut [u8],
) -> u32
    ensures value { result ≡ count_returned (parts_of program.now memory.now pc fp exec.now ext.now) grid.old answer.old }
    ensures grid_after { grid.new ≡ count_grid_left (parts_of program.now memory.now pc fp exec.now ext.now) grid.old answer.old }
    ensures answer_after { answer.new ≡ count_answer_left (parts_of program.now memory.now pc fp exec.now ext.now) grid.old answer.old }
{
    if !count_fits(grid.len(), answer.len()) {
        return misfit();
    }
    let mut counts = read_grid(grid);
    let a = count(&mut counts, program, memory, pc, fp, exec, ext);
    put_counted(grid, a, counts);
    reply(answer, a)
}

// A grid's report. ANSWER comes first.
pub fn report_call(grid: &[u8], text: &mut [u8], written: &mut [u8], answer: &mut [u8]) -> u32
    ensures value { result ≡ report_returned grid.now text.old written.old answer.old }
    ensures text_after { text.new ≡ report_text_left grid.now text.old written.old answer.old }
    ensures written_after { written.new ≡ report_written_left grid.now text.old written.old answer.old }
    ensures answer_after { answer.new ≡ report_answer_left grid.now text.old written.old answer.old }
{
    if !report_fits(grid.len(), written.len(), answer.len()) {
        return misfit();
    }
    let reported = report(&read_grid(grid), text);
    tell_number(reported, written, answer)
}
