// Which tuples a window holds: those of the senders from one on. Nothing depends on the choice but how much a window
// settles.
ghost use Rattle.std.specs.Prelude.{◌+◌, ◌<◌, ◌≤◌};
ghost use Rattle.bus_windows.specs.Senders.{given_of, tables_of, senders};
ghost use Rattle.bus_windows.specs.Window.{InWindow};

use crate::sender::Senders;
use bus_search::Window;

impl<'a> Senders<'a> {
    // Puts the tuple of sender j, if it sends one that is not there. How many slots are used then.
    fn add_sender(&self, window: &mut Window, used: usize, j: usize) -> usize
        requires { (used < 1024) × (j < senders (tables_of self.now)) }
        ensures { result ≤ used + 1 }
    {
        let Some(x) = self.sender(j) else {
            return used;
        };
        if window.seek(x.sent).is_some() {
            return used;
        }
        window.insert(used, x.sent);
        used + 1
    }

    // The tuples of the senders from one on and below another, as many as there is room for; slot 0 is left.
    fn add_senders(&self, window: &mut Window, from: usize, to: usize)
        requires { to ≤ senders (tables_of self.now) }
    {
        let mut used = 1;
        for j in from..to {
            if used == 1024 {
                return;
            }
            used = self.add_sender(window, used, j);
        }
    }

    // A window from a sender on. Its own tuple has slot 0, so that each window gets past one sender at least.
    pub(crate) fn fill(&self, window: &mut Window, from: usize, to: usize)
        requires { (from < to) × (to ≤ senders (tables_of self.now)) }
        ensures { InWindow (given_of self.now) (tables_of self.now) window.new from }
    {
        window.clear();
        self.add_senders(window, from + 1, to);
        if let Some(x) = self.sender(from) {
            window.insert_first(x.sent);
        }
    }
}
