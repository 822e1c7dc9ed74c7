// Marks of the tuples that a window holds, one of 16384 bits for each, so that most tuples that it does not hold are
// known by it.
ghost use Rattle.std.specs.Prelude.{◌≡◌, ◌<◌};
ghost use Rattle.bus_tuples.specs.Sent.{tuple_of};
ghost use Rattle.bus_search.specs.Marks.{mark_of, is_marked, with_mark};

use bus_tuples::{Sent, hash};

fn mark_of(t: Sent) -> u64
    ensures { (result ≡ mark_of (tuple_of t)) × (result < 16384) }
{
    hash(t) / 1048576 % 16384
}

pub(crate) fn is_marked(marks: &[u64; 256], t: Sent) -> bool
    ensures { result ≡ is_marked marks.now (tuple_of t) }
{
    let m = mark_of(t);
    let at = (m / 64) as usize;
    (marks[at] >> (m % 64)) % 2 == 1
}

// Nothing is proved of a mark: a tuple with none is not held in that window, which costs another window and no more.
pub(crate) fn mark(marks: &mut [u64; 256], t: Sent)
    ensures { marks.new ≡ with_mark marks.old (tuple_of t) }
{
    if is_marked(marks, t) {
        return;
    }
    let m = mark_of(t);
    let at = (m / 64) as usize;
    marks[at] = marks[at].wrapping_add(1 << (m % 64));
}
