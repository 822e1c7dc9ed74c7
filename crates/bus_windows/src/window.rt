// A window of 1024 tuples, those of the senders from one on, is counted in one pass over both tables, and then the
// senders are looked at up to the first whose tuple was not counted, where the next window begins. Nothing of a
// caller's may be written, so nothing can be sorted.
ghost use Rattle.std.specs.Prelude.{◌<◌, ◌≤◌};
ghost use Rattle.bus_windows.specs.Senders.{given_of, tables_of, senders, LooksFrom, FirstFrom};
ghost use Rattle.bus_windows.specs.Window.{Counted, InWindow, StandsAt};

use crate::sender::Senders;
use bus_search::Window;
use std::ops::ControlFlow;

impl<'a> Senders<'a> {
    // What the counts say of sender j: whether its tuple is pushed as often as it is pulled, if it was counted.
    fn stands(&self, window: &Window, net: &[u32; 1024], j: usize) -> Option<bool>
        requires j_bound { j < senders (tables_of self.now) }
        requires counted { Counted (given_of self.now) (tables_of self.now) window.now net.now (senders (tables_of self.now)) }
        ensures { StandsAt (given_of self.now) (tables_of self.now) window.now j result }
    {
        let Some(x) = self.sender(j) else {
            return Some(true);
        };
        let s = window.seek(x.sent)?;
        Some(net[s] == 2147483648)
    }

    // Looks at the senders from one on and below another, up to the first that is unequal or was not counted, where the
    // next look begins.
    fn look(
        &self,
        window: &Window,
        net: &[u32; 1024],
        from: usize,
        to: usize,
    ) -> ControlFlow<usize, usize>
        requires from_lt_to { (from < to) × (to ≤ senders (tables_of self.now)) }
        requires in_window { InWindow (given_of self.now) (tables_of self.now) window.now from }
        requires counted { Counted (given_of self.now) (tables_of self.now) window.now net.now (senders (tables_of self.now)) }
        ensures { LooksFrom (given_of self.now) (tables_of self.now) from to result }
    {
        for j in from..to {
            let Some(equal) = self.stands(window, net, j) else {
                return ControlFlow::Continue(j);
            };
            if !equal {
                return ControlFlow::Break(j);
            }
        }
        ControlFlow::Continue(to)
    }

    // Counts a window and looks at it.
    fn count_and_look(&self, window: &Window, from: usize, to: usize) -> ControlFlow<usize, usize>
        requires from_lt_to { (from < to) × (to ≤ senders (tables_of self.now)) }
        requires in_window { InWindow (given_of self.now) (tables_of self.now) window.now from }
        ensures { LooksFrom (given_of self.now) (tables_of self.now) from to result }
    {
        let mut net = [2147483648u32; 1024];
        self.count_pushes(window, &mut net);
        self.count_pulls(window, &mut net);
        self.look(window, &net, from, to)
    }

    fn window(&self, from: usize, to: usize) -> ControlFlow<usize, usize>
        requires { (from < to) × (to ≤ senders (tables_of self.now)) }
        ensures { LooksFrom (given_of self.now) (tables_of self.now) from to result }
    {
        let mut window = Window::new();
        self.fill(&mut window, from, to);
        self.count_and_look(&window, from, to)
    }

    // The first sender from one on and below another whose tuple is unequal.
    pub(crate) fn first_unequal(&self, from: usize, to: usize) -> Option<usize>
        requires { (from ≤ to) × (to ≤ senders (tables_of self.now)) }
        ensures { FirstFrom (given_of self.now) (tables_of self.now) from to result }
    {
        let mut j = from;
        while j < to {
            match self.window(j, to) {
                ControlFlow::Break(at) => return Some(at),
                ControlFlow::Continue(at) => j = at,
            }
        }
        None
    }
}
