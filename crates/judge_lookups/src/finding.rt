// What a lookup that fails found: document 02, M-104.
ghost use Rattle.std.specs.Prelude.{◌≡◌, cond, [], ◌∷◌, ◌/◌, ◌<◌, eqb, length};
ghost use Rattle.rows.specs.Rows.{five_words};
ghost use Rattle.rules.specs.Sizes.{word_of};
ghost use Rattle.rules.specs.Lookups.{finding, found_by};
ghost use Rattle.judge_lookups.specs.Joined.{joined};

use crate::buffers::Memory;
use rules::Found;

// Nothing is said.
pub fn nothing() -> Found
    ensures { result ≡ finding 0 0 }
{
    Found {
        expected: 0,
        found: 0,
    }
}

// A cell's word and the column's where they differ, and else what the cells after it say.
fn compared(expected: u32, found: u32, after: Found) -> Found
    ensures { result ≡ cond (eqb found expected) after (finding expected found) }
{
    if found == expected {
        return after;
    }
    Found { expected, found }
}

impl<'a> Memory<'a> {
    // The same of a cell that is there.
    fn compared_at(self, at: usize, found: u32, after: Found) -> Found
        requires { at < length (joined self) / 4 }
        ensures { result ≡ cond (eqb found (word_of (joined self.entry) at)) after (finding (word_of (joined self.entry) at) found) }
    {
        compared(self.cell_inside(at), found, after)
    }

    // Of a lookup of one cell.
    pub fn found_one(self, addr: u32, value: u32) -> Found
        ensures { result ≡ found_by (length (joined self.entry) / 4) (word_of (joined self.entry)) addr (value ∷ []) }
    {
        match self.look(addr as usize) {
            Some(expected) => compared(expected, value, nothing()),
            None => nothing(),
        }
    }

    // Of five cells: where the last is there all are.
    pub fn found_five(self, addr: u32, a: [u32; 5]) -> Found
        ensures { result ≡ found_by (length (joined self.entry) / 4) (word_of (joined self.entry)) addr (five_words a) }
    {
        let at = addr as usize;
        if !self.there(at + 4) {
            return nothing();
        }
        let fifth = self.compared_at(at + 4, a[4], nothing());
        let fourth = self.compared_at(at + 3, a[3], fifth);
        let third = self.compared_at(at + 2, a[2], fourth);
        let second = self.compared_at(at + 1, a[1], third);
        self.compared_at(at, a[0], second)
    }
}
