// Pulls are put into slots: one, and all those of a class.
ghost use Rattle.std.specs.Prelude.{◌≡◌, true, length, ◌+◌, ◌*◌, ◌/◌, ◌<◌};
ghost use Rattle.rows.specs.Rows.{ext_at};
ghost use Rattle.rules.specs.Bus.{pulled};
ghost use Rattle.bus_rounds.specs.Slots.{OneMore, Put};

use crate::Rounds;
use crate::hash::{class_of, low_of};
use crate::slot::Slots;
use bus_tuples::{Sent, pull_times, tuple_at};
use word::word_inside;

// How many extension rows start a group: no fewer than pull.
pub(crate) fn starts(ext: &[u8]) -> u64 {
    let mut found: u64 = 0;
    for k in 0..ext.len() / 120 {
        if word_inside(ext, 120 * k) != 0 {
            found += 1;
        }
    }
    found
}

impl<'a> Rounds<'a> {
    // Puts extension row k into a slot, where tuple t is looked for. False where none is found.
    fn put_slot(&self, slots: &mut Slots, t: Sent, k: usize) -> bool
        requires { k < length self.now.ext.now / 120 }
        ensures { result ≡ true
            → OneMore self.now.ext.now self.now.span (pulled (ext_at self.now.ext.now (120 * k))) slots.old slots.new }
    {
        let Some(s) = slots.empty_for(t) else {
            return false;
        };
        let x = low_of(t, self.span) + k as u32 + 1;
        slots.lo[s] = (x % 65536) as u16;
        slots.hi[s] = (x / 65536) as u8;
        true
    }

    // Puts extension row k, if it pulls a tuple of the class. False where it pulls more than once, or no slot is found.
    fn put_row(&self, slots: &mut Slots, class: u64, k: usize) -> bool
        requires { k < length self.now.ext.now / 120 }
        ensures { result ≡ true
            → Put self.now.ext.now self.now.span self.now.count class slots.old k
            → Put self.now.ext.now self.now.span self.now.count class slots.new (k + 1) }
    {
        let times = pull_times(self.ext, k);
        if times == 0 {
            return true;
        }
        if times != 1 {
            return false;
        }
        let t = tuple_at(self.ext, 120 * k);
        if class_of(t, self.count) != class {
            return true;
        }
        self.put_slot(slots, t, k)
    }

    pub(crate) fn put_rows(&self, slots: &mut Slots, class: u64) -> bool
        ensures { result ≡ true
            → Put self.now.ext.now self.now.span self.now.count class slots.old 0
            → Put self.now.ext.now self.now.span self.now.count class slots.new (length self.now.ext.now / 120) }
    {
        for k in 0..self.ext.len() / 120 {
            if !self.put_row(slots, class, k) {
                return false;
            }
        }
        true
    }
}
