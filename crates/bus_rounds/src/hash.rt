// Where a tuple goes: its class is its round's, its slot the first that is tried, its tag spares it the rows of
// most others. All that is proved of them is that the class is the tuple's alone.
ghost use Rattle.std.specs.Prelude.{◌≡◌, ◌<◌};
ghost use Rattle.bus_tuples.specs.Sent.{tuple_of};
ghost use Rattle.bus_rounds.specs.Slots.{class_of, Span, Tagged};

use bus_tuples::{Sent, hash};

pub(crate) fn class_of(t: Sent, rounds: u64) -> u64
    requires { 0 < rounds }
    ensures { result ≡ class_of rounds (tuple_of t) }
{
    hash(t) / 6553 % rounds
}

pub(crate) fn slot_of(t: Sent) -> usize
    ensures { result < 6553 }
{
    (hash(t) % 6553) as usize
}

// How far apart the slots are that are tried for a tuple: another number for each, so that they don't crowd.
pub(crate) fn step_of(t: Sent) -> usize
    ensures { result < 6553 }
{
    (1 + hash(t) / 65536 % 6552) as usize
}

// Where the numbers of a tuple's tag begin. A tag is below 127 or 7, so that none of them is the number of a slot that
// was taken.
pub(crate) fn low_of(t: Sent, span: u32) -> u32
    requires { Span span }
    ensures { Tagged span result }
{
    let bits = hash(t) / 16777216;
    if span == 131072 {
        return (131072 * (bits % 127)) as u32;
    }
    (2097152 * (bits % 7)) as u32
}
