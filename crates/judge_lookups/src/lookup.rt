// Lookups into the memory: a cell is asked for, and what stands there compared.
ghost use Rattle.std.specs.Prelude.{◌≡◌, ◌/◌, ◌<◌, ltb, length};
ghost use Rattle.rules.specs.Sizes.{word_of};
ghost use Rattle.judge_lookups.specs.Memory.{cell_of, cell_is, cells_are, held_are};
ghost use Rattle.judge_lookups.specs.Joined.{joined};

use crate::buffers::{Memory, cells};
use word::word_inside;

impl<'a> Memory<'a> {
    // Whether there is such a cell.
    pub(crate) fn there(self, addr: usize) -> bool
        ensures { result ≡ ltb addr (length (joined self.entry) / 4) }
    {
        0 < self.cell(addr).len()
    }

    // The word of a cell that is there.
    pub(crate) fn cell_inside(self, addr: usize) -> u32
        requires { addr < length (joined self) / 4 }
        ensures { result ≡ word_of (joined self.entry) addr }
    {
        word_inside(self.cell(addr), 0)
    }

    // The word of a cell, where there is such a cell.
    pub(crate) fn look(self, addr: usize) -> Option<u32>
        ensures { result ≡ cell_of (joined self.entry) addr }
    {
        let bytes = self.cell(addr);
        if bytes.len() < 4 {
            return None;
        }
        Some(word_inside(bytes, 0))
    }

    // The cell exists and holds the value.
    pub fn looks_up(self, addr: usize, value: u32) -> bool
        ensures { result ≡ cell_is (joined self.entry) addr value }
    {
        self.look(addr) == Some(value)
    }

    // Five cells from an address on, each by itself, as they may cross from one buffer into the other.
    pub fn looks_up_five(self, addr: u32, a: [u32; 5]) -> bool
        ensures { result ≡ cells_are (joined self.entry) addr a }
    {
        let at = addr as usize;
        self.looks_up(at, a[0])
            & self.looks_up(at + 1, a[1])
            & self.looks_up(at + 2, a[2])
            & self.looks_up(at + 3, a[3])
            & self.looks_up(at + 4, a[4])
    }
}

// Whether one buffer holds the five, and they are these: read at once. It says no where they cross the seam.
pub fn five_held<'a>(public: &'a [u8], rest: &'a [u8], addr: u32, a: [u32; 5]) -> bool
    ensures { result ≡ held_are public.now rest.now addr a }
{
    let bytes = cells(public, rest, addr as usize, 5);
    if bytes.len() < 20 {
        return false;
    }
    (a[0] == word_inside(bytes, 0))
        & (a[1] == word_inside(bytes, 4))
        & (a[2] == word_inside(bytes, 8))
        & (a[3] == word_inside(bytes, 12))
        & (a[4] == word_inside(bytes, 16))
}
