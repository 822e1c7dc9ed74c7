// A number of 64 bits beside an answer, in eight bytes of the caller's: what was written, or where a generator is.
ghost use Rattle.std.specs.Prelude.{◌≡◌, ◌&&◌, eqb, length};
ghost use Rattle.answer.specs.Answers.{answer_of, number_of};
ghost use Rattle.long.specs.Long.{long_bytes};
ghost use Rattle.reply.specs.Reply.{answer_bytes, verdict_of, replied};

use crate::reply;
use answer::{Answer, Refusal};
use long::put_long;

// Whether the two buffers of fixed length have it.
pub fn told_fits(number: usize, answer: usize) -> bool
    ensures { result ≡ (eqb number 8 && eqb answer answer_bytes) }
{
    (number == 8) & (answer == 24)
}

// Both are told, each in its buffer.
pub fn tell(a: Answer, x: u64, number: &mut [u8], answer: &mut [u8]) -> u32
    requires { (length number.old ≡ 8) × (length answer.old ≡ answer_bytes) }
    ensures { (result ≡ verdict_of a)
        × (number.new ≡ long_bytes x)
        × (answer.new ≡ replied a answer.old) }
{
    put_long(number, 0, x);
    reply(answer, a)
}

// The number that a call gives where it is accepted, and 0 where it is refused.
pub fn tell_number(given: Result<u64, Refusal>, number: &mut [u8], answer: &mut [u8]) -> u32
    requires { (length number.old ≡ 8) × (length answer.old ≡ answer_bytes) }
    ensures { (result ≡ verdict_of (answer_of given))
        × (number.new ≡ long_bytes (number_of given))
        × (answer.new ≡ replied (answer_of given) answer.old) }
{
    match given {
        Ok(x) => tell(Ok(()), x, number, answer),
        Err(refusal) => tell(Err(refusal), 0, number, answer),
    }
}
