// How often the rows push, and pull, in all.
ghost use Rattle.std.specs.Prelude.{◌≡◌, ◌/◌, length};
ghost use Rattle.rules.specs.Bus.{total};
ghost use Rattle.bus_windows.specs.Senders.{given_of, tables_of, push_times, pull_times};

use crate::sender::Senders;
use bus_tuples::pull_times;

impl<'a> Senders<'a> {
    // stays: with a closure for the row, the bound of the sum and its promise would take more lines than both loops.
    pub(crate) fn push_total(&self) -> usize
        ensures { result ≡ total (push_times (given_of self.now) (tables_of self.now)) (length self.now.rows.exec.now / 32) }
    {
        let mut n: usize = 0;
        for r in 0..self.rows.exec.len() / 32 {
            if self.rows.row_pushes(r) {
                n += 1;
            }
        }
        n
    }

    pub(crate) fn pull_total(&self) -> usize
        ensures { result ≡ total (pull_times (tables_of self.now)) (length self.now.ext.now / 120) }
    {
        let mut n: usize = 0;
        for k in 0..self.ext.len() / 120 {
            n += pull_times(self.ext, k) as usize;
        }
        n
    }
}
