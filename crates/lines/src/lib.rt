// Numbers behind a name, and lines of them, as the programs, a report and a listing have them: documents 01, "Draws,
// recipe, label", and 02.
#![tactic(auto)]

mod decimal;

ghost use Rattle.std.specs.Prelude.{◌≡◌, ◌+◌, ◌≤◌, length};
ghost use Rattle.lines.specs.Line.{numbered, line_of, over};
ghost use Rattle.lines.specs.Putting.{Room, Put};

use decimal::ended_digits;

// A buffer, and the byte of it where the next text goes.
#[derive(Drop)]
pub struct Out<'a> {
    pub bytes: &'a mut [u8],
    pub at: usize,
}

// Bytes from a byte of the buffer on.
// stays: place by place, as `copy_from_slice` would have whoever links the C library find `memmove`.
fn put_at(text: &[u8], at: usize, out: &mut [u8])
    requires { at + length text.now ≤ length out.old }
    ensures { out.new ≡ over out.old at text.now }
{
    for i in 0..text.len() {
        out[at + i] = text[i];
    }
}

impl Out<'_> {
    // The text, and the place behind it.
    pub fn put(&mut self, text: &[u8])
        requires { Room self.old text.now }
        ensures { Put self.old text.now self.new }
    {
        let end = self.at + text.len();
        put_at(text, self.at, self.bytes);
        self.at = end;
    }

    // A name, a number and the byte that ends it.
    pub fn put_number(&mut self, name: &[u8], number: u64, end: u8)
        requires { Room self.old (numbered name.now number end) }
        ensures { Put self.old (numbered name.now number end) self.new }
    {
        let mut bytes = [end; 21];
        self.put(name);
        self.put(ended_digits(number, &mut bytes));
    }

    // A line of a name and a number.
    pub fn put_line(&mut self, name: &[u8], number: u64)
        requires { Room self.old (line_of name.now number) }
        ensures { Put self.old (line_of name.now number) self.new }
    {
        self.put_number(name, number, 10);
    }
}
