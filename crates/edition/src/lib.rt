// M-102, document 02: a program of draft 0.5.0 translated into the form of draft 0.6.0.
#![tactic(auto)]

mod encoded;
mod walk;

ghost use Rattle.std.specs.Prelude.{◌≡◌, length};
ghost use Rattle.edition_spec.specs.Translated.{lengths_fit, translate_answer, program_left};

use answer::{Answer, Refusal};
use inputs::first_word;
use walk::{first_untranslatable, put_all};

fn lengths_fit(old: usize, program: usize) -> bool
    ensures { result ≡ lengths_fit old program }
{
    (old % 56 == 0) & (1 <= old / 56) & (old / 56 <= 1048576) & (program == 48 * (old / 56))
}

// The program in the form of draft 0.6.0; a refusal changes no byte.
pub fn translate(old: &[u8], program: &mut [u8]) -> Answer
    ensures { (result ≡ translate_answer old.now (length program.old))
        × (program.new ≡ program_left old.now program.old) }
{
    if !lengths_fit(old.len(), program.len()) {
        return Err(Refusal::Size { part: 1, place: 0 });
    }
    let word = first_word(old);
    if word < old.len() / 4 {
        return Err(Refusal::Word {
            part: 1,
            place: word as u32,
        });
    }
    if let Some(at) = first_untranslatable(old) {
        return Err(Refusal::Edition { place: at as u32 });
    }
    put_all(old, program);
    Ok(())
}
