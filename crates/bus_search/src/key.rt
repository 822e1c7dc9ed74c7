// Tuples as numbers, by which they are sorted: four words in 128 bits.
ghost use Rattle.std.specs.Prelude.{◌≡◌, ◌+◌, ◌*◌, ◌/◌, ◌%◌};
ghost use Rattle.bus_tuples.specs.Sent.{tuple_of};
ghost use Rattle.bus_search.specs.Slots.{key_of, tuple_in};

use bus_tuples::Sent;

// Two words in a number.
fn joined(high: u32, low: u32) -> u64
    ensures { (result ≡ high * 4294967296 + low) × (result / 4294967296 ≡ high) × (result % 4294967296 ≡ low) }
{
    4294967296 * u64::from(high) + u64::from(low)
}

pub(crate) fn key(t: Sent) -> u128
    ensures key { result ≡ key_of (tuple_of t) }
    ensures tuple { tuple_in result ≡ tuple_of t }
{
    let upper = u128::from(joined(t.aux, t.left));
    let lower = u128::from(joined(t.right, t.out));
    18446744073709551616 * upper + lower
}

pub(crate) fn tuple_in(key: u128) -> Sent
    ensures { tuple_of result ≡ tuple_in key }
{
    let upper = key / 18446744073709551616;
    let lower = key % 18446744073709551616;
    Sent {
        aux: (upper / 4294967296) as u32,
        left: (upper % 4294967296) as u32,
        right: (lower / 4294967296) as u32,
        out: (lower % 4294967296) as u32,
    }
}
