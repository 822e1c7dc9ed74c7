// Programs from draft 0.5.0, document 02, M-102: the library's function hands on what it is given.
ghost use Rattle.std.specs.Prelude.{◌≡◌};
ghost use Rattle.uisnabar_edition.specs.TranslateCall.{translate_returned, translate_program_left, translate_answer_left};

use uisnabar_edition::translate_call;

// A program translated into the form of draft 0.6.0.
pub fn uisnabar_translate(old: &[u8], program: &mut [u8], answer: &mut [u8]) -> u32
    ensures value { result ≡ translate_returned old.now program.old answer.old }
    ensures program_after { program.new ≡ translate_program_left old.now program.old answer.old }
    ensures answer_after { answer.new ≡ translate_answer_left old.now program.old answer.old }
{
    translate_call(old, program, answer)
}
