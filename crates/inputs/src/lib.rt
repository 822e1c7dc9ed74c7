// What the judge and the tabler test alike: the lengths of the four parts, their words, the program's instructions.
#![tactic(auto)]

mod size;
mod walk;

ghost use Rattle.std.specs.Prelude.{cond, ◌≡◌};

pub use size::{bad_part, is_power, memory_fits, program_fits};
pub use walk::{eight_words, first_word, first_word_unless, program_walk};

// What one walk over the program tells: the first malformed instruction, and whether there is none and all words are
// below p.
// stays: `at` is `first_malformed` (judge_spec/specs/Judged.antt), by which INSTRUCTION's place is told
#[derive(Drop)]
pub struct Walked {
    pub at: usize,
    pub words: bool,
}

// The number of a test that fails, and else what comes after it.
// stays: rules are told by number, 0 where all hold, as `failing` (judge_spec/specs/First.antt) has them
pub fn first_of(number: u32, holds: bool, rest: u32) -> u32
    ensures { result ≡ cond holds rest number }
{
    if holds { rest } else { number }
}
