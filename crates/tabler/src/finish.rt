// A run to its end: the tables filled, or all zero.
ghost use Rattle.std.specs.Prelude.{length};
ghost use Rattle.inputs.specs.Parts.{Fitting};
ghost use Rattle.tabler.specs.Ends.{run_of, Tabling};
ghost use Rattle.inputs.specs.Words.{WellFormed};

use crate::run::run;
use answer::{Answer, six_numbers};
use tabler_operands::State;
use word::clear;

// 9 to 11 leave both tables all zero.
pub(crate) fn finish(
    program: &[u8],
    memory: &[u8],
    start: State,
    exec: &mut [u8],
    ext: &mut [u8],
) -> Answer
    requires fitting { Fitting (length program.now) (length memory.now) (length exec.old) (length ext.old) }
    requires well_formed { WellFormed program.now }
    ensures { Tabling program.now memory.now start.pc start.fp exec.old ext.old (run_of program.now memory.now start.pc start.fp exec.old ext.old) exec.new ext.new result }
{
    let answer = run(program, memory, start, exec, ext);
    let numbers = six_numbers(answer);
    if numbers.verdict != 0 {
        clear(exec);
        clear(ext);
    }
    answer
}
