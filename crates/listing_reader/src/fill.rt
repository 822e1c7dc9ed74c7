// The program of a text that is known to be a listing.
ghost use Rattle.std.specs.Prelude.{◌≡◌, ◌*◌, ◌≤◌, length};
ghost use Rattle.listing_reader.specs.Walk.{ending, filled_by, Wholly};

use form_bytes::put_instruction;
use listing_forms::form_instruction;
use listing_line::read_line;

// Each line's instruction through its own 48 bytes; the bytes after the last stay.
pub(crate) fn put_forms(text: &[u8], lines: usize, program: &mut [u8])
    requires { Wholly text.now lines × (48 * lines ≤ length program.old) }
    ensures { program.new ≡ filled_by (ending text.now) program.old }
{
    let mut place = 0;
    for i in 0..lines {
        let line = read_line(text, place).unwrap();
        let at = 48 * i;
        let end = at + 48;
        put_instruction(&mut program[at..end], form_instruction(line.value));
        place = line.at;
    }
}
