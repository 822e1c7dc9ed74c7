// Where a window of 1024 slots holds a tuple, or where it belongs. Slots 1 to 1023 are kept sorted, and those not used
// are above every tuple. Nothing is proved of the order: a slot that is found holds the tuple, and the same tuple is
// always found in the same slot, which is all that counting needs.
#![tactic(auto)]

mod key;
mod marks;

ghost use Rattle.std.specs.Prelude.{◌≡◌, ◌<◌, Some};
ghost use Rattle.bus_tuples.specs.Sent.{tuple_of};
ghost use Rattle.bus_search.specs.Slots.{place_of, holds, slot_of, empty, cleared, inserted, inserted_first};

use bus_tuples::Sent;
use key::{key, tuple_in};
use marks::{is_marked, mark};

// Tuples, each a number in its slot, and a mark for each.
#[derive(Drop)]
pub struct Window {
    slots: [u128; 1024],
    marks: [u64; 256],
}

impl Window {
    // A window of zeros, for `clear`: zeros are made where they stay, and other numbers are made first and then copied.
    pub fn new() -> Window
        ensures { result ≡ empty }
    {
        Window {
            slots: [0; 1024],
            marks: [0; 256],
        }
    }

    // Leaves no slot in use: each is above every tuple.
    pub fn clear(&mut self)
        ensures { self.new ≡ cleared self.old }
    {
        self.slots.fill(u128::MAX);
    }

    // The last of the sorted slots that is at most the tuple; 0 where none is.
    // stays: std's searches promise a place where the slice is sorted, and for that every caller would prove an order.
    fn place(&self, t: Sent) -> usize
        ensures { (result ≡ place_of self.now.slots (tuple_of t)) × (result < 1024) }
    {
        let key = key(t);
        let mut at = 0;
        let mut step = 512;
        for _k in 0..10usize {
            if self.slots[at + step] <= key {
                at += step;
            }
            step /= 2;
        }
        at
    }

    fn holds(&self, at: usize, t: Sent) -> bool
        requires { at < 1024 }
        ensures { result ≡ holds self.now.slots at (tuple_of t) }
    {
        tuple_in(self.slots[at]) == t
    }

    // The slot that holds a tuple. Most tuples that are not held have no mark, and are not searched for.
    pub fn seek(&self, t: Sent) -> Option<usize>
        ensures { result ≡ slot_of self.now (tuple_of t) }
    {
        if self.holds(0, t) {
            return Some(0);
        }
        if !is_marked(&self.marks, t) {
            return None;
        }
        let at = self.place(t);
        if self.holds(at, t) { Some(at) } else { None }
    }

    // Puts a tuple among the sorted slots, of which those below `used` are used, and marks it.
    pub fn insert(&mut self, used: usize, t: Sent)
        requires { used < 1024 }
        ensures { self.new ≡ inserted self.old used (tuple_of t) }
    {
        let at = (self.place(t) + 1).min(used);
        self.slots.copy_within(at..used, at + 1);
        self.slots[at] = key(t);
        mark(&mut self.marks, t);
    }

    // Puts a tuple into slot 0, which is tried first.
    pub fn insert_first(&mut self, t: Sent)
        ensures window { self.new ≡ inserted_first self.old (tuple_of t) }
        ensures slot { slot_of self.new (tuple_of t) ≡ Some 0 }
    {
        self.slots[0] = key(t);
    }
}
