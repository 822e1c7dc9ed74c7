// Padding: the extension rows past the last group.
ghost use Rattle.std.specs.Prelude.{◌≡◌, ◌/◌, ◌%◌, ◌≤◌, length};
ghost use Rattle.word.specs.Bytes.{concatenated};
ghost use Rattle.rules.specs.Sizes.{word_of};
ghost use Rattle.tables.specs.Groups.{padding};
ghost use Rattle.tabler_rows.specs.Placed.{ext_bytes, with_padding};

use rows::{Ext, put_ext};
use std::array;
use tabler_cells::cell;

// start 1, len 1, all indexes and flags 0; comp and res are cells 0 to 4.
fn padding_row(memory: &[u8]) -> Ext
    ensures { result ≡ padding (word_of memory.now) }
{
    let five = array::from_fn(|k| cell(memory, k));
    Ext {
        start: 1,
        add: 0,
        mul: 0,
        peq: 0,
        len: 1,
        idxA: 0,
        idxB: 0,
        idxR: 0,
        be: 0,
        base: five[0],
        vA: five,
        vB: five,
        comp: five,
        res: five,
    }
}

fn put_padding(memory: &[u8], part: &mut [u8])
    requires { length part.old % 120 ≡ 0 }
    ensures { part.new ≡ concatenated (λ j. ext_bytes (padding (word_of memory.now))) (length part.old / 120) }
{
    let row = padding_row(memory);
    for j in 0..part.len() / 120 {
        let at = 120 * j;
        let end = at + 120;
        put_ext(&mut part[at..end], row);
    }
}

// Padding in every row after those filled.
pub fn pad(memory: &[u8], filled: usize, ext: &mut [u8])
    requires { filled ≤ length ext.old / 120 }
    ensures { ext.new ≡ with_padding (word_of memory.now) filled ext.old }
{
    let from = 120 * filled;
    let to = 120 * (ext.len() / 120);
    put_padding(memory, &mut ext[from..to]);
}
