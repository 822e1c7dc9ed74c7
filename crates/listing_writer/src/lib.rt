// The writer of listings: document 02, M-105.
#![tactic(auto)]

mod length;
mod line;
mod walk;

ghost use Rattle.std.specs.Prelude.{◌≡◌};
ghost use Rattle.answer.specs.Answers.{answer_of, number_of};
ghost use Rattle.listing_spec.specs.Writing.{listed, listed_in};

use answer::Refusal;
use inputs::{first_word_unless, program_fits, program_walk};
use lines::Out;
use walk::{needed, put_all};

// A program's listing at the text's start, and its length; the bytes after it stay, and a refusal changes none.
pub fn list(program: &[u8], text: &mut [u8]) -> Result<u64, Refusal>
    ensures value { answer_of result ≡ (listed program.now text.old).answer }
    ensures written { number_of result ≡ (listed program.now text.old).written }
    ensures text_after { text.new ≡ listed_in program.now text.old }
{
    if !program_fits(program.len()) {
        return Err(Refusal::Size { part: 1, place: 0 });
    }
    let walked = program_walk(program);
    let malformed = walked.at;
    let word = first_word_unless(program, walked.words);
    if word < program.len() / 4 {
        let place = word as u32;
        return Err(Refusal::Word { part: 1, place });
    }
    if malformed < program.len() / 48 {
        let place = malformed as u32;
        return Err(Refusal::Instruction { place });
    }
    let size = needed(program);
    if text.len() < size {
        let place = size as u32;
        return Err(Refusal::Short { place });
    }
    let mut out = Out { bytes: text, at: 0 };
    put_all(program, &mut out);
    Ok(size as u64)
}
