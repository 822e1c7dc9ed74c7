// The execution rows and then the extension rows as one sequence of senders, in the order in which verdict 7 tries
// them.
ghost use Rattle.std.specs.Prelude.{◌≤◌};
ghost use Rattle.bus_tuples.specs.Ready.{Flagged, Short};

use bus_tuples::{ListedRows, Sent, pull_times, tuple_at};

// A tuple, how often a row pushes it, and how often it pulls it.
#[derive(Drop)]
pub(crate) struct Tally {
    pub(crate) plus: u32,
    pub(crate) minus: u32,
    pub(crate) sent: Sent,
    ghost once: { plus ≤ 1 },
    ghost thrice: { minus ≤ 3 },
}

// Both tables and the program, after the stages before the bus.
#[derive(Clone, Copy)]
pub(crate) struct Senders<'a> {
    pub(crate) rows: ListedRows<'a>,
    pub(crate) ext: &'a [u8],
    ghost flagged: { Flagged ext.now },
    ghost exec_short: { Short rows.exec.now },
    ghost ext_short: { Short ext.now },
}

impl<'a> Senders<'a> {
    ghost use Rattle.std.specs.Prelude.{◌/◌, ◌<◌, length};
    ghost use Rattle.bus_windows.specs.Senders.{given_of, tables_of, push_sent, pull_sent, sending_of, senders, Reads};

    // Execution row r. Most rows push nothing: of those no tuple is made.
    pub(crate) fn pusher(&self, r: usize) -> Option<Tally>
        requires { r < length self.now.rows.exec.now / 32 }
        ensures { Reads result (push_sent (given_of self.now) (tables_of self.now) r) }
    {
        if !self.rows.row_pushes(r) {
            return None;
        }
        Some(Tally {
            plus: 1,
            minus: 0,
            sent: self.rows.row_tuple(r),
        })
    }

    // Extension row k.
    pub(crate) fn puller(&self, k: usize) -> Option<Tally>
        requires { k < length self.now.ext.now / 120 }
        ensures { Reads result (pull_sent (tables_of self.now) k) }
    {
        let minus = pull_times(self.ext, k);
        if minus == 0 {
            return None;
        }
        Some(Tally {
            plus: 0,
            minus,
            sent: tuple_at(self.ext, 120 * k),
        })
    }

    pub(crate) fn sender(&self, j: usize) -> Option<Tally>
        requires { j < senders (tables_of self.now) }
        ensures { Reads result (sending_of (given_of self.now) (tables_of self.now) j) }
    {
        let h = self.rows.exec.len() / 32;
        if j < h {
            return self.pusher(j);
        }
        self.puller(j - h)
    }
}
