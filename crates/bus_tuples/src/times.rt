// Whether a row pushes, and how often one pulls.
ghost use Rattle.std.specs.Prelude.{◌≡◌, ◌*◌, ◌/◌, ◌<◌, length};
ghost use Rattle.form.specs.Form.{opcode};
ghost use Rattle.rows.specs.Rows.{ext_at};
ghost use Rattle.bus_tuples.specs.Times.{pull_count};

use form::Instruction;
use word::word_inside;

// Whether an instruction has no opcode word: of the well-formed ones those push once, and the others not.
pub fn is_precompile(i: Instruction) -> bool
    ensures { result ≡ opcode i 0 0 0 }
{
    (i.mul == 0) & (i.jump == 0) & (i.aux == 0)
}

// Extension row k: most have no start, and of those no more is read.
// stays: 2 where a word is no flag, and no None, as the definition `pull_by` of specs/Times says.
pub fn pull_times(ext: &[u8], k: usize) -> u32
    requires { k < length ext.now / 120 }
    ensures { result ≡ pull_count (ext_at ext.now (120 * k)) }
{
    let at = 120 * k;
    let start = word_inside(ext, at);
    if start == 0 {
        return 0;
    }
    let add = word_inside(ext, at + 4);
    let mul = word_inside(ext, at + 8);
    let peq = word_inside(ext, at + 12);
    if (start == 1) & (add <= 1) & (mul <= 1) & (peq <= 1) {
        return add + mul + peq;
    }
    2
}
