// Which ticks a session keeps.
ghost use Rattle.std.specs.Prelude.{◌≡◌};
ghost use Rattle.session_book.specs.Counter.{keeps, counted};

/// Counts down to the next tick that a session keeps.
#[derive(Clone, Copy, Debug, PartialEq, Eq)]
pub(crate) struct Counter {
    // The session's rounded interval.
    rounded: u32,
    // What is left of it until the next tick is due; 0 at first.
    left: u32,
}

impl Counter {
    pub(crate) fn new(rounded: u32) -> Counter
        ensures { result ≡ record { rounded = rounded; left = 0 } }
    {
        Counter { rounded, left: 0 }
    }

    /// Counts a tick, and returns whether it is kept. A tick of interval 0 always is, and leaves the
    /// counter unchanged.
    pub(crate) fn count(&mut self, interval: u32) -> bool
        ensures kept { result ≡ keeps self.old.left interval }
        ensures counted { self.new ≡ counted self.old interval }
    {
        if interval == 0 {
            return true;
        }
        if self.left <= interval {
            self.left = self.rounded;
            return true;
        }
        self.left -= interval;
        false
    }
}
