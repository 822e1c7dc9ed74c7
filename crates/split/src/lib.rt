// The judge on a memory in two buffers, public words and the rest: document 02, M-109.
#![tactic(auto)]

ghost use Rattle.std.specs.Prelude.{◌≡◌};
ghost use Rattle.split_spec.specs.Split.{split_parts_of, public_fits, split_fits, judge_split_of};

use answer::{Answer, Refusal};
use inputs::{is_power, memory_fits, program_fits};
use judge::judge_two;

// Whether the bytes are 2^m' words, m' from 0 to 28.
fn public_fits(bytes: usize) -> bool
    ensures { result ≡ public_fits bytes }
{
    (bytes % 4 == 0) & ((bytes / 4 == 1) | is_power(bytes / 4, 1, 28))
}

// Whether the first are 2^m' words and both together 2^m, m' below m. More than 2^31 bytes are no memory's, and are not
// added.
fn split_fits(public: usize, rest: usize) -> bool
    ensures { result ≡ split_fits public rest }
{
    if 2147483648 < public {
        return false;
    }
    if 2147483648 < rest {
        return false;
    }
    public_fits(public) & (1 <= rest) & memory_fits(public + rest)
}

// The judge. SIZE of part 1 comes first, then that of the two; what is left is the judge's own, on the two joined.
pub fn judge_split<'a>(
    program: &[u8],
    public: &'a [u8],
    rest: &'a [u8],
    pc: u64,
    fp: u64,
    exec: &[u8],
    ext: &[u8],
) -> Answer
    ensures { result ≡ judge_split_of (split_parts_of program.now public.now rest.now pc fp exec.now ext.now) }
{
    if !program_fits(program.len()) {
        return Err(Refusal::Size { part: 1, place: 0 });
    }
    if !split_fits(public.len(), rest.len()) {
        return Err(Refusal::Size { part: 2, place: 0 });
    }
    judge_two(program, public, rest, pc, fp, exec, ext)
}
