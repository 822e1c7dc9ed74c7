// Pulls in the order in which they stand: what the next one pulls, against what a row pushes.
ghost use Rattle.std.specs.Prelude.{◌≡◌};
ghost use Rattle.bus_tuples.specs.Sent.{tuple_of};
ghost use Rattle.bus_tuples.specs.Order.{next_pull, after_pull, after_row};

use crate::Sent;
use crate::times::{is_precompile, pull_times};
use crate::tuple::{pushed_tuple, tuple_at};
use form::Instruction;
use rows::Exec;

// The first extension row from a row on that may pull; their number where there is none.
// stays: a number and no None, as the definition `next_pull` of specs/Order says, which the bus of the judge rests on.
pub fn next_pull(ext: &[u8], from: usize) -> usize
    ensures { result ≡ next_pull ext.now from }
{
    let n = ext.len() / 120;
    for k in from..n {
        if pull_times(ext, k) != 0 {
            return k;
        }
    }
    from.max(n)
}

// The extension row after the next pull from row k on, where that pulls t once; past the end where it doesn't.
// stays: past the end and no None, as the definition `pulled_by` of specs/Order says, which the walk's contract cites.
pub fn after_pull(ext: &[u8], k: usize, t: Sent) -> usize
    ensures { result ≡ after_pull ext.now k (tuple_of t) }
{
    let n = ext.len() / 120;
    let at = next_pull(ext, k);
    if n <= at {
        return n + 1;
    }
    if (pull_times(ext, at) == 1) & (tuple_at(ext, 120 * at) == t) {
        return at + 1;
    }
    n + 1
}

// The same after an execution row x with instruction i, of which only a precompile pushes.
pub fn after_row(ext: &[u8], k: usize, i: Instruction, x: Exec) -> usize
    ensures { result ≡ after_row ext.now k i x }
{
    if is_precompile(i) {
        return after_pull(ext, k, pushed_tuple(i, x));
    }
    k
}
