// A pass over both tables: the execution rows first and then the extension rows, each counted where the window holds
// its tuple.
ghost use Rattle.std.specs.Prelude.{◌≡◌, ◌/◌, length};
ghost use Rattle.bus_windows.specs.Senders.{given_of, tables_of, senders};
ghost use Rattle.bus_windows.specs.Window.{Counted, Countable, tallied};

use crate::sender::{Senders, Tally};
use bus_search::Window;

// What a sender sends, at its tuple's slot, if the window has one.
fn count_one(window: &Window, net: &mut [u32; 1024], x: Tally)
    requires { Countable net.old }
    ensures { net.new ≡ tallied window.now net.old x }
{
    if let Some(s) = window.seek(x.sent) {
        net[s] = net[s] + x.plus - x.minus;
    }
}

impl<'a> Senders<'a> {
    // Counts every push.
    // stays: with a closure for the row, its promise would take more lines than the loop; what is alike is count_one's.
    pub(crate) fn count_pushes(&self, window: &Window, net: &mut [u32; 1024])
        requires { Counted (given_of self.now) (tables_of self.now) window.now net.old 0 }
        ensures { Counted (given_of self.now) (tables_of self.now) window.now net.new (length self.now.rows.exec.now / 32) }
    {
        for r in 0..self.rows.exec.len() / 32 {
            if let Some(x) = self.pusher(r) {
                count_one(window, net, x);
            }
        }
    }

    // Counts every pull, after the pushes.
    pub(crate) fn count_pulls(&self, window: &Window, net: &mut [u32; 1024])
        requires { Counted (given_of self.now) (tables_of self.now) window.now net.old (length self.now.rows.exec.now / 32) }
        ensures { Counted (given_of self.now) (tables_of self.now) window.now net.new (senders (tables_of self.now)) }
    {
        for k in 0..self.ext.len() / 120 {
            if let Some(x) = self.puller(k) {
                count_one(window, net, x);
            }
        }
    }
}
