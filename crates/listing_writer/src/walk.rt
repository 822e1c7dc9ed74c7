// Over all instructions: their lines' length, and each line put where the one before it ends.
ghost use Rattle.std.specs.Prelude.{◌≡◌, ◌*◌, ◌/◌, ◌^◌, ◌≤◌, ◌<◌, length};
ghost use Rattle.lines.specs.Putting.{Room, Put};
ghost use Rattle.form.specs.Form.{decode_of};
ghost use Rattle.form.specs.Instruction.{instruction_at};
ghost use Rattle.inputs.specs.Words.{WellFormed};
ghost use Rattle.listing_spec.specs.Listing.{listing_of};

use crate::length::form_length;
use crate::line::put_form;
use form::{Form, decode_known, instruction_inside};
use lines::Out;

// Every instruction was tested before: one is decoded with no test.
fn form_at(program: &[u8], i: usize) -> Form
    requires well_formed { WellFormed program.now }
    requires i_in_bounds { i < length program.now / 48 }
    ensures { decode_of (instruction_at program.now (48 * i)) ≡ Some result }
{
    decode_known(instruction_inside(program, 48 * i))
}

// The listing's length: at most 80 bytes a line, so it fits in 32 bits.
pub(crate) fn needed(program: &[u8]) -> usize
    requires well_formed { WellFormed program.now }
    requires program_len_bound { length program.now / 48 ≤ 2 ^ 20 }
    ensures { (result ≡ length (listing_of program.now)) × (result < 2 ^ 32) }
{
    let mut size = 0;
    for i in 0..program.len() / 48 {
        size += form_length(form_at(program, i));
    }
    size
}

// All lines, each behind the one before it.
pub(crate) fn put_all(program: &[u8], out: &mut Out)
    requires well_formed { WellFormed program.now }
    requires room { Room out.old (listing_of program.now) }
    ensures { Put out.old (listing_of program.now) out.new }
{
    for i in 0..program.len() / 48 {
        put_form(form_at(program, i), out);
    }
}
