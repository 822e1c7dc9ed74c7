// The C library's exports, as include/uisnabar.h declares them: each hands on to the function of `uisnabar` of its
// name, with the same promise.
#![tactic(auto)]

ghost use Rattle.reply.specs.Reply.{replied, returned};
ghost use Rattle.rules.specs.Sizes.{parts_of};
ghost use Rattle.split_spec.specs.Split.{judge_split_of, split_parts_of};
ghost use Rattle.std.specs.Prelude.{◌≡◌};
ghost use Rattle.uisnabar.specs.Calls.{LabelCall, answer_to};
ghost use Rattle.uisnabar_edition.specs.TranslateCall.{translate_answer_left, translate_program_left, translate_returned};
ghost use Rattle.uisnabar_forms.specs.CountCall.{count_answer_left, count_grid_left, count_returned};
ghost use Rattle.uisnabar_forms.specs.ReportCall.{report_answer_left, report_returned, report_text_left, report_written_left};
ghost use Rattle.uisnabar_listing.specs.ListCall.{list_answer_left, list_returned, list_text_left, list_written_left};
ghost use Rattle.uisnabar_listing.specs.ReadListingCall.{ReadListingCall};
ghost use Rattle.uisnabar_range.specs.RangesCall.{ranges_answer_left, ranges_finds_left, ranges_found_left, ranges_returned};
ghost use Rattle.uisnabar_stream.specs.StreamCalls.{host_answer_left, host_next_left, host_returned, jump_answer_left, jump_next_left, jump_returned};

// The judge. ANSWER comes first, so nothing is judged for a caller who cannot be told.
#[unsafe(no_mangle)]
pub extern "C" fn uisnabar_judge(
    program: &[u8],
    memory: &[u8],
    pc: u64,
    fp: u64,
    exec: &[u8],
    ext: &[u8],
    answer: &mut [u8],
) -> u32
    ensures value { result ≡ returned (answer_to program.now memory.now pc fp exec.now ext.now) answer.old }
    ensures answer_after { answer.new ≡ replied (answer_to program.now memory.now pc fp exec.now ext.now) answer.old }
{
    uisnabar::uisnabar_judge(program, memory, pc, fp, exec, ext, answer)
}

// The label reader. ANSWER is the answer before any other, for either buffer.
#[unsafe(no_mangle)]
pub extern "C" fn uisnabar_label(text: &[u8], answer: &mut [u8], recipe: &mut [u8]) -> u32
    ensures { LabelCall text.now answer.old recipe.old answer.new recipe.new result }
{
    uisnabar::uisnabar_label(text, answer, recipe)
}

// A program translated into the form of draft 0.6.0.
#[unsafe(no_mangle)]
pub extern "C" fn uisnabar_translate(old: &[u8], program: &mut [u8], answer: &mut [u8]) -> u32
    ensures value { result ≡ translate_returned old.now program.old answer.old }
    ensures program_after { program.new ≡ translate_program_left old.now program.old answer.old }
    ensures answer_after { answer.new ≡ translate_answer_left old.now program.old answer.old }
{
    uisnabar::uisnabar_translate(old, program, answer)
}

// A table counted into a grid.
#[unsafe(no_mangle)]
pub extern "C" fn uisnabar_count(
    program: &[u8],
    memory: &[u8],
    pc: u64,
    fp: u64,
    exec: &[u8],
    ext: &[u8],
    grid: &mut [u8],
    answer: &mut [u8],
) -> u32
    ensures value { result ≡ count_returned (parts_of program.now memory.now pc fp exec.now ext.now) grid.old answer.old }
    ensures grid_after { grid.new ≡ count_grid_left (parts_of program.now memory.now pc fp exec.now ext.now) grid.old answer.old }
    ensures answer_after { answer.new ≡ count_answer_left (parts_of program.now memory.now pc fp exec.now ext.now) grid.old answer.old }
{
    uisnabar::uisnabar_count(program, memory, pc, fp, exec, ext, grid, answer)
}

// A grid's report.
#[unsafe(no_mangle)]
pub extern "C" fn uisnabar_report(
    grid: &[u8],
    text: &mut [u8],
    written: &mut [u8],
    answer: &mut [u8],
) -> u32
    ensures value { result ≡ report_returned grid.now text.old written.old answer.old }
    ensures text_after { text.new ≡ report_text_left grid.now text.old written.old answer.old }
    ensures written_after { written.new ≡ report_written_left grid.now text.old written.old answer.old }
    ensures answer_after { answer.new ≡ report_answer_left grid.now text.old written.old answer.old }
{
    uisnabar::uisnabar_report(grid, text, written, answer)
}

// A program's listing.
#[unsafe(no_mangle)]
pub extern "C" fn uisnabar_list(
    program: &[u8],
    text: &mut [u8],
    written: &mut [u8],
    answer: &mut [u8],
) -> u32
    ensures value { result ≡ list_returned program.now text.old written.old answer.old }
    ensures text_after { text.new ≡ list_text_left program.now text.old written.old answer.old }
    ensures written_after { written.new ≡ list_written_left program.now text.old written.old answer.old }
    ensures answer_after { answer.new ≡ list_answer_left program.now text.old written.old answer.old }
{
    uisnabar::uisnabar_list(program, text, written, answer)
}

// A listing's program.
#[unsafe(no_mangle)]
pub extern "C" fn uisnabar_read_listing(
    text: &[u8],
    program: &mut [u8],
    written: &mut [u8],
    answer: &mut [u8],
) -> u32
    ensures { ReadListingCall text.now program.old written.old answer.old
        program.new written.new answer.new result }
{
    uisnabar::uisnabar_read_listing(text, program, written, answer)
}

// The range checks of a table.
#[unsafe(no_mangle)]
pub extern "C" fn uisnabar_ranges(
    program: &[u8],
    memory: &[u8],
    pc: u64,
    fp: u64,
    exec: &[u8],
    ext: &[u8],
    finds: &mut [u8],
    found: &mut [u8],
    answer: &mut [u8],
) -> u32
    ensures value { result ≡ ranges_returned (parts_of program.now memory.now pc fp exec.now ext.now) finds.old found.old answer.old }
    ensures finds_after { finds.new ≡ ranges_finds_left (parts_of program.now memory.now pc fp exec.now ext.now) finds.old found.old answer.old }
    ensures found_after { found.new ≡ ranges_found_left (parts_of program.now memory.now pc fp exec.now ext.now) finds.old found.old answer.old }
    ensures answer_after { answer.new ≡ ranges_answer_left (parts_of program.now memory.now pc fp exec.now ext.now) finds.old found.old answer.old }
{
    uisnabar::uisnabar_ranges(program, memory, pc, fp, exec, ext, finds, found, answer)
}

// A state so many draws further on.
#[unsafe(no_mangle)]
pub extern "C" fn uisnabar_jump(state: u64, draws: u64, next: &mut [u8], answer: &mut [u8]) -> u32
    ensures value { result ≡ jump_returned next.old answer.old }
    ensures next_after { next.new ≡ jump_next_left state draws next.old answer.old }
    ensures answer_after { answer.new ≡ jump_answer_left next.old answer.old }
{
    uisnabar::uisnabar_jump(state, draws, next, answer)
}

// A host's first state.
#[unsafe(no_mangle)]
pub extern "C" fn uisnabar_host(seed: u64, host: u64, next: &mut [u8], answer: &mut [u8]) -> u32
    ensures value { result ≡ host_returned seed host next.old answer.old }
    ensures next_after { next.new ≡ host_next_left seed host next.old answer.old }
    ensures answer_after { answer.new ≡ host_answer_left seed host next.old answer.old }
{
    uisnabar::uisnabar_host(seed, host, next, answer)
}

// The judge, with public words in their own buffer.
#[unsafe(no_mangle)]
pub extern "C" fn uisnabar_judge_split<'a>(
    program: &[u8],
    public: &'a [u8],
    rest: &'a [u8],
    pc: u64,
    fp: u64,
    exec: &[u8],
    ext: &[u8],
    answer: &mut [u8],
) -> u32
    ensures value { result ≡ returned (judge_split_of (split_parts_of program.now public.now rest.now pc fp exec.now ext.now)) answer.old }
    ensures answer_after { answer.new ≡ replied (judge_split_of (split_parts_of program.now public.now rest.now pc fp exec.now ext.now)) answer.old }
{
    uisnabar::uisnabar_judge_split(program, public, rest, pc, fp, exec, ext, answer)
}
