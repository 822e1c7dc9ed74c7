// An answer in lines.
ghost use Rattle.std.specs.Prelude.{◌≡◌, ◌+◌, ◌≤◌, length};
ghost use Rattle.lines.specs.Line.{over};
ghost use Rattle.lines.specs.Putting.{Put};
ghost use Rattle.replay.specs.Replay.{four_lines, two_lines, lines_of};

use answer::{Answer, Numbers, six_numbers};
use lines::Out;

// The lines that name an answer.
fn put_named(numbers: Numbers, out: &mut Out)
    requires { out.old.at + 108 ≤ length out.old.bytes.now }
    ensures { Put out.old (four_lines numbers) out.new }
{
    out.put_line(b"verdict=", u64::from(numbers.verdict));
    out.put_line(b"part=", u64::from(numbers.part));
    out.put_line(b"place=", u64::from(numbers.place));
    out.put_line(b"rule=", u64::from(numbers.rule));
}

// The lines for what stood there.
fn put_stood(numbers: Numbers, out: &mut Out)
    requires { out.old.at + 57 ≤ length out.old.bytes.now }
    ensures { Put out.old (two_lines numbers) out.new }
{
    out.put_line(b"expected=", u64::from(numbers.expected));
    out.put_line(b"found=", u64::from(numbers.found));
}

// The six lines of an answer from a byte of the buffer on, and where they end.
// stays: the place and the buffer come apart, as a label of its own stands before the lines or nothing does.
pub(crate) fn put_answer(answer: Answer, at: usize, out: &mut [u8]) -> usize
    requires { at + 165 ≤ length out.old }
    ensures { (result ≡ at + length (lines_of answer))
        × (out.new ≡ over out.old at (lines_of answer)) }
{
    let numbers = six_numbers(answer);
    let mut lines = Out { bytes: out, at };
    put_named(numbers, &mut lines);
    put_stood(numbers, &mut lines);
    lines.at
}
