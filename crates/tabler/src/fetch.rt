// The form of the instruction at a pc. Every instruction was tested before the run: one is decoded with no test.
ghost use Rattle.std.specs.Prelude.{◌≡◌, ◌*◌, ◌/◌, ◌<◌, length};
ghost use Rattle.form.specs.Form.{decode_of};
ghost use Rattle.form.specs.Instruction.{instruction_at};
ghost use Rattle.tables.specs.Machine.{form_in};
ghost use Rattle.inputs.specs.Words.{WellFormed};

use form::{Form, decode_known, instruction_inside};

pub(crate) fn form_at(program: &[u8], pc: u32) -> Form
    requires well_formed { WellFormed program.now }
    requires pc_in_bounds { pc < length program.now / 48 }
    ensures { result ≡ form_in (decode_of (instruction_at program.now (48 * pc))) }
{
    decode_known(instruction_inside(program, 48 * (pc as usize)))
}
