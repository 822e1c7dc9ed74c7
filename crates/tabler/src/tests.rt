// The tabler's tests 2 to 4, and the run once they pass.
ghost use Rattle.std.specs.Prelude.{length, []};
ghost use Rattle.rules.specs.Sizes.{given};
ghost use Rattle.judge_spec.specs.Judged.{words, instructions};
ghost use Rattle.inputs.specs.Parts.{Fitting};
ghost use Rattle.tabler_spec.specs.Tabled.{start_fits};
ghost use Rattle.tabler.specs.Ends.{run_of, Tabling};

use crate::finish::finish;
use answer::{Answer, Refusal};
use inputs::{first_word, first_word_unless, program_walk};
use tabler_operands::State;
use word::P;

// 2 to 4 change no byte.
pub(crate) fn table_words(
    program: &[u8],
    memory: &[u8],
    pc: u64,
    fp: u64,
    exec: &mut [u8],
    ext: &mut [u8],
) -> Answer
    requires { Fitting (length program.now) (length memory.now) (length exec.old) (length ext.old) }
    ensures { Tabling program.now memory.now pc fp exec.old ext.old (words 1 program.now (words 2 memory.now (instructions (given program.now []) (start_fits pc fp (run_of program.now memory.now pc fp exec.old ext.old))))) exec.new ext.new result }
{
    let walked = program_walk(program);
    let w = first_word_unless(program, walked.words);
    if w < program.len() / 4 {
        return Err(Refusal::Word {
            part: 1,
            place: w as u32,
        });
    }
    let v = first_word(memory);
    if v < memory.len() / 4 {
        return Err(Refusal::Word {
            part: 2,
            place: v as u32,
        });
    }
    let i = walked.at;
    if i < program.len() / 48 {
        return Err(Refusal::Instruction { place: i as u32 });
    }
    if P <= pc {
        return Err(Refusal::Start);
    }
    if P <= fp {
        return Err(Refusal::Start);
    }
    let start = State {
        pc: pc as u32,
        fp: fp as u32,
    };
    finish(program, memory, start, exec, ext)
}
