// Programs from draft 0.5.0 as a C call gives them: document 02, M-102. The library's function hands on to this one.
#![tactic(auto)]

ghost use Rattle.std.specs.Prelude.{◌≡◌};
ghost use Rattle.uisnabar_edition.specs.TranslateCall.{translate_returned, translate_program_left, translate_answer_left};

use answer::Refusal;
use edition::translate;
use reply::reply;

// A program translated. ANSWER comes first, so nothing is written for a caller who cannot be told.
pub fn translate_call(old: &[u8], program: &mut [u8], answer: &mut [u8]) -> u32
    ensures value { result ≡ translate_returned old.now program.old answer.old }
    ensures program_after { program.new ≡ translate_program_left old.now program.old answer.old }
    ensures answer_after { answer.new ≡ translate_answer_left old.now program.old answer.old }
{
    if answer.len() != 24 {
        return reply(answer, Err(Refusal::Buffer));
    }
    let a = translate(old, program);
    reply(answer, a)
}
