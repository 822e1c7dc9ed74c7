// Range checks as a C call gives them: document 02, M-108. The library's function hands on to this.
#![tactic(auto)]

ghost use Rattle.std.specs.Prelude.{◌≡◌};
ghost use Rattle.rules.specs.Sizes.{parts_of};
ghost use Rattle.uisnabar_range.specs.RangesCall.{ranges_returned, ranges_finds_left, ranges_found_left, ranges_answer_left};

use range::find_ranges;
use reply::{misfit, tell_number, told_fits};

// The range checks of a table. ANSWER comes first, so nothing is judged for a caller who cannot be told.
pub fn ranges_call(
    program: &[u8],
    memory: &[u8],
    pc: u64,
    fp: u64,
    exec: &[u8],
    ext: &[u8],
    finds: &mut [u8],
    found: &mut [u8],
    answer: &mut [u8],
) -> u32
    ensures value { result ≡ ranges_returned (parts_of program.now memory.now pc fp exec.now ext.now) finds.old found.old answer.old }
    ensures finds_after { finds.new ≡ ranges_finds_left (parts_of program.now memory.now pc fp exec.now ext.now) finds.old found.old answer.old }
    ensures found_after { found.new ≡ ranges_found_left (parts_of program.now memory.now pc fp exec.now ext.now) finds.old found.old answer.old }
    ensures answer_after { answer.new ≡ ranges_answer_left (parts_of program.now memory.now pc fp exec.now ext.now) finds.old found.old answer.old }
{
    if !told_fits(found.len(), answer.len()) {
        return misfit();
    }
    let ranged = find_ranges(program, memory, pc, fp, exec, ext, finds);
    tell_number(ranged, found, answer)
}
