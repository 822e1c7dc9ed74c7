// Slots are tried from a tuple's own on, in steps that are the tuple's too, at most 2048 of them.
ghost use Rattle.std.specs.Prelude.{◌≡◌, true, false, ℕ, ◌+◌, ◌*◌, ◌<◌, ◌≤◌, length, IfSome};
ghost use Rattle.bus_tuples.specs.Sent.{tuple_of};
ghost use Rattle.bus_rounds.specs.Slots.{slot_at, live, waiting, Room, Tagged};

use crate::Rounds;
use crate::hash::{low_of, slot_of, step_of};
use bus_tuples::{Sent, tuple_at};

// How many numbers a tag has: more than the table has rows. A short table leaves more bits to the tag.
// stays: a number and no enum, as the definition `waiting` of specs/Slots divides by it.
pub(crate) fn span_of(ext: &[u8]) -> u32
    requires { length ext.now ≤ 125829120 }
    ensures { Room ext.now result }
{
    if ext.len() <= 7864320 {
        return 131072;
    }
    2097152
}

fn after(s: usize, step: usize) -> usize
    requires { (s < 6553) × (step < 6553) }
    ensures { result < 6553 }
{
    let next = s + step;
    if next < 6553 {
        return next;
    }
    next - 6553
}

fn is_live(x: u32) -> bool
    ensures { result ≡ live x }
{
    (x != 0) & (x != 16777215)
}

// The slots of a round: 24 bits each, in three bytes and not four.
#[derive(Drop)]
pub(crate) struct Slots {
    pub(crate) lo: [u16; 6553],
    pub(crate) hi: [u8; 6553],
}

impl Slots {
    // Empty ones.
    pub(crate) fn new() -> Slots
        ensures { (s : ℕ) → s < 6553 → slot_at result s ≡ 0 }
    {
        Slots {
            lo: [0; 6553],
            hi: [0; 6553],
        }
    }

    // A slot's number.
    fn number(&self, s: usize) -> u32
        requires { s < 6553 }
        ensures { result ≡ slot_at self.now s }
    {
        u32::from(self.lo[s]) + 65536 * u32::from(self.hi[s])
    }

    // An empty slot for tuple t, if one is found.
    pub(crate) fn empty_for(&self, t: Sent) -> Option<usize>
        ensures { IfSome result (λ s. (s < 6553) × (slot_at self.now s ≡ 0)) }
    {
        let step = step_of(t);
        let mut s = slot_of(t);
        for _ in 0..2048 {
            if self.number(s) == 0 {
                return Some(s);
            }
            s = after(s, step);
        }
        None
    }

    // Whether no row waits. Every slot is looked at, whatever the ones before it hold, so that the compiler looks at
    // many at once.
    pub(crate) fn none_waits(&self) -> bool
        ensures { result ≡ true → (s : ℕ) → s < 6553 → live (slot_at self.now s) ≡ false }
    {
        let mut none = true;
        for s in 0..6553 {
            none = none & !is_live(self.number(s));
        }
        none
    }
}

impl<'a> Rounds<'a> {
    // Whether a slot's number is that of a row with the tag that begins at low, and the row's tuple is t. A row is read
    // only where the tag agrees.
    fn waits(&self, x: u32, t: Sent, low: u32) -> bool
        requires { Tagged self.now.span low }
        ensures { result ≡ true → waiting self.now.ext.now self.now.span (tuple_of t) x ≡ true }
    {
        if x <= low {
            return false;
        }
        let at = 120 * ((x - low - 1) as usize);
        if self.ext.len() < at + 120 {
            return false;
        }
        tuple_at(self.ext, at) == t
    }

    // A slot where a row with tuple t waits, if one is found. None is beyond an empty slot.
    pub(crate) fn waiting_for(&self, slots: &Slots, t: Sent) -> Option<usize>
        ensures { IfSome result (λ s. (s < 6553)
            × (waiting self.now.ext.now self.now.span (tuple_of t) (slot_at slots.now s) ≡ true)) }
    {
        let low = low_of(t, self.span);
        let step = step_of(t);
        let mut s = slot_of(t);
        for _ in 0..2048 {
            let x = slots.number(s);
            if x == 0 {
                return None;
            }
            if self.waits(x, t, low) {
                return Some(s);
            }
            s = after(s, step);
        }
        None
    }
}
