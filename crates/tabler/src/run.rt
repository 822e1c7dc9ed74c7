// The run: H steps, and the rows of each written as it goes.
ghost use Rattle.std.specs.Prelude.{cond, ◌≡◌, ◌-◌, ◌/◌, ◌≤◌, ◌<◌, ◌^◌, length};
ghost use Rattle.rules.specs.Sizes.{word_of};
ghost use Rattle.inputs.specs.Parts.{Fitting};
ghost use Rattle.answer.specs.Answers.{Accepted, Open};
ghost use Rattle.tabler.specs.Ends.{Ended};
ghost use Rattle.inputs.specs.Words.{WellFormed};
ghost use Rattle.tabler_rows.specs.Placed.{with_padding};

use crate::fetch::form_at;
use answer::{Answer, Refusal};
use tabler_operands::{State, look_all};
use tabler_rows::{pad, put_row};
use tabler_step::{Halt, take_step};

// Every row is written: the last step has to stay, and past the last group is padding.
fn close(memory: &[u8], height: usize, stays: bool, filled: usize, ext: &mut [u8]) -> Answer
    requires { (0 < height) × (height < 2 ^ 32) × (filled ≤ length ext.old / 120) }
    ensures value { result ≡ cond stays Accepted (Open (height - 1)) }
    ensures ext_after { result ≡ Accepted → ext.new ≡ with_padding (word_of memory.now) filled ext.old }
{
    if !stays {
        return Err(Refusal::Open {
            row: (height - 1) as u32,
        });
    }
    pad(memory, filled, ext);
    Ok(())
}

// Stuck or no room at a row, open at the last, or both tables filled. A refusal leaves them half written.
pub(crate) fn run(
    program: &[u8],
    memory: &[u8],
    start: State,
    exec: &mut [u8],
    ext: &mut [u8],
) -> Answer
    requires fitting { Fitting (length program.now) (length memory.now) (length exec.old) (length ext.old) }
    requires well_formed { WellFormed program.now }
    ensures { Ended program.now memory.now start.pc start.fp exec.old ext.old exec.new ext.new result }
{
    let count = (program.len() / 48) as u32;
    let height = exec.len() / 32;
    let mut state = start;
    let mut filled = 0;
    let mut stays = true;
    for r in 0..height {
        let row = r as u32;
        if count <= state.pc {
            return Err(Refusal::Stuck { row, rule: 1 });
        }
        let f = form_at(program, state.pc);
        let o = look_all(memory, state.fp, f);
        match take_step(memory, state, f.kind, o, filled, ext) {
            Err(Halt::Stuck { rule }) => {
                return Err(Refusal::Stuck { row, rule });
            }
            Err(Halt::Full) => {
                return Err(Refusal::Room { row });
            }
            Ok(moved) => {
                put_row(state, o, r, exec);
                stays = moved.to == state;
                state = moved.to;
                filled = moved.filled;
            }
        }
    }
    close(memory, height, stays, filled, ext)
}
