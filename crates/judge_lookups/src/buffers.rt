// Document 02, M-109: a memory in two buffers, public words and the rest. This is the one place where the rules of a
// row read cells. (WORD walks the whole memory before them.)
ghost use Rattle.std.specs.Prelude.{◌≡◌, ◌<◌};
ghost use Rattle.judge_lookups.specs.Memory.{cell_bytes, held_bytes, SeamBetween};

// A memory that two buffers hold, one behind the other: public words, and the rest.
#[derive(Clone, Copy)]
pub struct Memory<'a> {
    pub public: &'a [u8],
    pub rest: &'a [u8],
    pub ghost seam_between: { SeamBetween public.now },
}

// The bytes of n cells of one buffer, from one on; an empty part where they are not all there.
fn part_of<'a>(bytes: &'a [u8], addr: usize, n: usize) -> &'a [u8]
    requires { 0 < n }
    ensures { result.now ≡ cell_bytes bytes.now addr n }
{
    let count = bytes.len() / 4;
    if count <= addr {
        return &bytes[..0];
    }
    if count - addr < n {
        return &bytes[..0];
    }
    &bytes[4 * addr..4 * addr + 4 * n]
}

// The bytes of n cells where one buffer holds them all; an empty part where they cross the seam or are not there.
pub(crate) fn cells<'a>(public: &'a [u8], rest: &'a [u8], addr: usize, n: usize) -> &'a [u8]
    requires { 0 < n }
    ensures { result.now ≡ held_bytes public.now rest.now addr n }
{
    let seam = public.len() / 4;
    if addr < seam {
        return part_of(public, addr, n);
    }
    part_of(rest, addr - seam, n)
}

impl<'a> Memory<'a> {
    ghost use Rattle.judge_lookups.specs.Joined.{joined};

    // A memory in one buffer: nothing is public.
    pub fn whole(memory: &'a [u8]) -> Memory<'a>
        ensures { joined result ≡ memory.now }
    {
        Memory {
            public: &memory[..0],
            rest: memory,
        }
    }

    // The four bytes of a cell, of whichever buffer holds it; an empty part where there is no such cell.
    pub(crate) fn cell(self, addr: usize) -> &'a [u8]
        ensures { result.now ≡ cell_bytes (joined self.entry) addr 1 }
    {
        cells(self.public, self.rest, addr, 1)
    }
}
