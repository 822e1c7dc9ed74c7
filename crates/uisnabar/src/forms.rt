// Form counts, document 02, M-100: the library's functions hand on what they are given.
ghost use Rattle.std.specs.Prelude.{◌≡◌};
ghost use Rattle.rules.specs.Sizes.{parts_of};
ghost use Rattle.uisnabar_forms.specs.CountCall.{count_returned, count_grid_left, count_answer_left};
ghost use Rattle.uisnabar_forms.specs.ReportCall.{report_returned, report_text_left, report_written_left, report_answer_left};

use uisnabar_forms::{count_call, report_call};

// A table counted into a grid.
pub fn uisnabar_count(
    program: &[u8],
    memory: &[u8],
    pc: u64,
    fp: u64,
    exec: &[u8],
    ext: &[u8],
    grid: &mut [u8],
    answer: &mut [u8],
) -> u32
    ensures value { result ≡ count_returned (parts_of program.now memory.now pc fp exec.now ext.now) grid.old answer.old }
    ensures grid_after { grid.new ≡ count_grid_left (parts_of program.now memory.now pc fp exec.now ext.now) grid.old answer.old }
    ensures answer_after { answer.new ≡ count_answer_left (parts_of program.now memory.now pc fp exec.now ext.now) grid.old answer.old }
{
    count_call(program, memory, pc, fp, exec, ext, grid, answer)
}

// A grid's report.
pub fn uisnabar_report(grid: &[u8], text: &mut [u8], written: &mut [u8], answer: &mut [u8]) -> u32
    ensures value { result ≡ report_returned grid.now text.old written.old answer.old }
    ensures text_after { text.new ≡ report_text_left grid.now text.old written.old answer.old }
    ensures written_after { written.new ≡ report_written_left grid.now text.old written.old answer.old }
    ensures answer_after { answer.new ≡ report_answer_left grid.now text.old written.old answer.old }
{
    report_call(grid, text, written, answer)
}
