// Over all rows that two more follow: the finds counted, and written.
ghost use Rattle.std.specs.Prelude.{◌≡◌, [], ℕ, ◌+◌, ◌/◌, ◌≤◌, ◌<◌, ◌^◌, length};
ghost use Rattle.lines.specs.Putting.{Room, Put};
ghost use Rattle.rules.specs.Sizes.{given, tables};
ghost use Rattle.bus_tuples.specs.Ready.{Short};
ghost use Rattle.range_spec.specs.Finds.{bound_at, find_bytes, first_rows, all_finds, finds_number};

use crate::triple::{bound_at, found_at};
use bus_tuples::ListedRows;
use lines::Out;
use word::put_word;

// The rows of an accepted table, each of whose bounds fits in 32 bits.
#[derive(Clone, Copy)]
pub(crate) struct AcceptedRows<'a> {
    pub(crate) rows: ListedRows<'a>,
    pub(crate) ghost short: { Short rows.exec.now },
    pub(crate) ghost enough: { 256 ≤ length rows.exec.now / 32 },
    pub(crate) ghost bounds: { (r : ℕ) → r + 2 < length rows.exec.now / 32
        → bound_at (given rows.program.now []) (tables rows.exec.now []) r < 2 ^ 32 },
}

impl AcceptedRows<'_> {
    // Two rows follow the first.
    fn first_rows(&self) -> usize
        ensures { result ≡ first_rows (tables self.now.rows.exec.now []) }
    {
        self.rows.exec.len() / 32 - 2
    }

    // How many finds there are.
    pub(crate) fn count_finds(&self) -> usize
        ensures { (result ≡ finds_number (given self.now.rows.program.now []) (tables self.now.rows.exec.now []))
            × (result < 2 ^ 32) }
    {
        let mut n = 0;
        for r in 0..self.first_rows() {
            if found_at(&self.rows, r) {
                n += 1;
            }
        }
        n
    }

    // What is written for row r.
    fn put_row(&self, r: usize, out: &mut Out)
        requires r_in_bounds { r + 2 < length self.now.rows.exec.now / 32 }
        requires room { Room out.old (find_bytes (given self.now.rows.program.now []) (tables self.now.rows.exec.now []) r) }
        ensures { Put out.old (find_bytes (given self.now.rows.program.now []) (tables self.now.rows.exec.now []) r) out.new }
    {
        if !found_at(&self.rows, r) {
            return;
        }
        put_word(out.bytes, out.at, r as u32);
        put_word(out.bytes, out.at + 4, bound_at(&self.rows, r));
        out.at += 8;
    }

    // Each behind the one before it, until there is none left.
    pub(crate) fn put_finds(&self, n: usize, out: &mut Out)
        requires n_value { n ≡ finds_number (given self.now.rows.program.now []) (tables self.now.rows.exec.now []) }
        requires room { Room out.old (all_finds (given self.now.rows.program.now []) (tables self.now.rows.exec.now [])) }
        ensures { Put out.old (all_finds (given self.now.rows.program.now []) (tables self.now.rows.exec.now [])) out.new }
    {
        let end = out.at + 8 * n;
        for r in 0..self.first_rows() {
            if out.at == end {
                return;
            }
            self.put_row(r, out);
        }
    }
}
