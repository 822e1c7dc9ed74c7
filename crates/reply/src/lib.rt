// An answer as a C call gives it: the verdict returned, the six numbers in the caller's 24 bytes; and beside it a
// number in eight bytes, where the call gives one.
#![tactic(auto)]

mod told;

ghost use Rattle.std.specs.Prelude.{◌≡◌, length};
ghost use Rattle.rows.specs.Rows.{put_row};
ghost use Rattle.answer.specs.Answers.{Buffer};
ghost use Rattle.reply.specs.Reply.{verdict_of, answer_bytes, in_order, returned, replied};

use answer::{Answer, Numbers, Refusal, six_numbers};
use rows::put_words;
pub use told::{tell, tell_number, told_fits};

// Six numbers into 24 bytes.
fn put_numbers(buffer: &mut [u8], n: Numbers)
    ensures { buffer.new ≡ put_row buffer.old answer_bytes (in_order n) }
{
    put_words(
        buffer,
        &[n.verdict, n.part, n.place, n.rule, n.expected, n.found],
    );
}

// The verdict, or ANSWER's where the buffer is not 24 bytes; nothing is written then.
pub fn reply(buffer: &mut [u8], a: Answer) -> u32
    ensures { (result ≡ returned a buffer.old) × (buffer.new ≡ replied a buffer.old) }
{
    if buffer.len() != 24 {
        return misfit();
    }
    let six = six_numbers(a);
    put_numbers(buffer, six);
    six.verdict
}

// ANSWER's number, where a buffer of fixed length has another and nothing is written.
pub fn misfit() -> u32
    ensures { result ≡ verdict_of Buffer }
{
    let other = six_numbers(Err(Refusal::Buffer));
    other.verdict
}
