// Pushes take what waits in the slots: one, and all those of a class.
ghost use Rattle.std.specs.Prelude.{◌≡◌, true, length, ◌+◌, ◌/◌, ◌<◌};
ghost use Rattle.bus_tuples.specs.Sent.{tuple_of};
ghost use Rattle.bus_rounds.specs.Slots.{OneLess, Taken};

use crate::Rounds;
use crate::hash::class_of;
use crate::slot::Slots;
use bus_tuples::Sent;

impl<'a> Rounds<'a> {
    // Takes a row with tuple t out of its slot. False where none is found that waits.
    fn take_slot(&self, slots: &mut Slots, t: Sent) -> bool
        ensures { result ≡ true → OneLess self.now.ext.now self.now.span (tuple_of t) slots.old slots.new }
    {
        let Some(s) = self.waiting_for(slots, t) else {
            return false;
        };
        slots.lo[s] = 65535;
        slots.hi[s] = 255;
        true
    }

    // Takes what execution row r pushes, if its tuple is of the class. False where no row waits for it.
    fn take_row(&self, slots: &mut Slots, class: u64, r: usize) -> bool
        requires { r < length self.now.rows.exec.now / 32 }
        ensures { result ≡ true
            → Taken self.now.rows.program.now self.now.rows.exec.now self.now.ext.now self.now.span self.now.count class slots.old r
            → Taken self.now.rows.program.now self.now.rows.exec.now self.now.ext.now self.now.span self.now.count class slots.new (r + 1) }
    {
        if !self.rows.row_pushes(r) {
            return true;
        }
        let t = self.rows.row_tuple(r);
        if class_of(t, self.count) != class {
            return true;
        }
        self.take_slot(slots, t)
    }

    pub(crate) fn take_rows(&self, slots: &mut Slots, class: u64) -> bool
        ensures { result ≡ true
            → Taken self.now.rows.program.now self.now.rows.exec.now self.now.ext.now self.now.span self.now.count class slots.old 0
            → Taken self.now.rows.program.now self.now.rows.exec.now self.now.ext.now self.now.span self.now.count class slots.new
            (length self.now.rows.exec.now / 32) }
    {
        for r in 0..self.rows.exec.len() / 32 {
            if !self.take_row(slots, class, r) {
                return false;
            }
        }
        true
    }
}
