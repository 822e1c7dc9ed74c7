// The bus of tables whose groups stand in any order, settled in rounds: in each the pulls of one class of tuples are
// put into slots, and every push of that class takes one of its tuple.
#![tactic(auto)]

mod hash;
mod put;
mod slot;
mod take;

ghost use Rattle.std.specs.Prelude.{◌≡◌, true, [], ◌/◌, ◌<◌, length};
ghost use Rattle.rules.specs.Bus.{Tuple, pushed_to, pulled_to};
ghost use Rattle.rules.specs.Sizes.{given, tables};
ghost use Rattle.bus_tuples.specs.Ready.{Listed};
ghost use Rattle.bus_rounds.specs.Slots.{class_of, Room};

use bus_tuples::ListedRows;
use put::starts;
use slot::{Slots, span_of};

// Both tables, how far apart tags are, and how many rounds there are.
#[derive(Clone, Copy)]
struct Rounds<'a> {
    rows: ListedRows<'a>,
    ext: &'a [u8],
    span: u32,
    count: u64,
    ghost room: { Room ext.now span },
    ghost some: { 0 < count },
}

impl<'a> Rounds<'a> {
    // Whether the pushes of a class of tuples take all its pulls. A slot has 24 bits, so that the slots of a round stay
    // near the processor: 0 where it is empty, a tag and k + 1 where extension row k waits, and 2^24 - 1 where a push
    // took it.
    fn settles(&self, class: u64) -> bool
        ensures { result ≡ true → (σ : Tuple) → class_of self.now.count σ ≡ class
            → pushed_to (given self.now.rows.program.now []) (tables self.now.rows.exec.now self.now.ext.now) σ
            (length self.now.rows.exec.now / 32)
            ≡ pulled_to (tables self.now.rows.exec.now self.now.ext.now) σ (length self.now.ext.now / 120) }
    {
        let mut slots = Slots::new();
        self.put_rows(&mut slots, class) && self.take_rows(&mut slots, class) && slots.none_waits()
    }
}

// Where it is true every tuple is pushed as often as it is pulled; where it is false nothing is known. A round has room
// for 6144 pulls.
pub fn pairs_up<'a>(program: &'a [u8], exec: &'a [u8], ext: &'a [u8]) -> bool
    requires { Listed program.now exec.now }
    ensures { result ≡ true → (σ : Tuple)
        → pushed_to (given program.now []) (tables exec.now ext.now) σ (length exec.now / 32)
        ≡ pulled_to (tables exec.now ext.now) σ (length ext.now / 120) }
{
    if 125829120 < ext.len() {
        return false;
    }
    let rounds = Rounds {
        rows: ListedRows { program, exec },
        ext,
        span: span_of(ext),
        count: starts(ext) / 6145 + 1,
    };
    // The first stands by itself: a round that is called in one place becomes part of its callers, and the room of its
    // slots part of what the windows are called from.
    if !rounds.settles(0) {
        return false;
    }
    for class in 1..rounds.count {
        if !rounds.settles(class) {
            return false;
        }
    }
    true
}
