ghost use Rattle.std.specs.Prelude.{◌≡◌, ◌+◌, nat_le};
ghost use Rattle.outsider.specs.SoftStarter.{soft_starter, new_starter, cut};
ghost use Rattle.std.proofs.Common.{rules};

use switches::{Held, Switch};

// The longest run of the motor, and how long it then cools: four hours, and ten minutes.
const LONGEST_RUN: u64 = 14_400_000;

const COOLING: u64 = 600_000;

// A starter with a thermal cut-out. After the longest run a tick opens the contact, and after every opening
// the motor cools before it is free again.
#[derive(Clone, Copy)]
pub struct SoftStarter {
    closed: bool,
    // the time of the last tick, 0 before any
    last: u64,
    // the tick at which the contact last closed or opened
    since: u64,
}

impl SoftStarter {
    // An open starter. It is taken to be hot at time 0, since nobody knows how long it ran before.
    pub fn new() -> SoftStarter
        ensures { result ≡ new_starter }
    {
        SoftStarter {
            closed: false,
            last: 0,
            since: 0,
        }
    }

    // Opens the contact; the cooling begins.
    fn cut(&mut self)
        ensures { self.new ≡ cut self.old }
    {
        self.closed = false;
        self.since = self.last;
    }
}

impl Switch for SoftStarter {
    ghost model = { soft_starter };

    ghost tick_never_closes = { Prim.search rules };

    ghost free_closes = { Prim.search rules };

    ghost open_opens = { Prim.search rules };

    ghost closed_is_free = { Prim.search rules };

    fn tick(&mut self, time: u64) {
        self.last = time;
        if self.closed && has_passed(LONGEST_RUN, self.since, time) {
            self.cut();
        }
    }

    fn close(&mut self) -> Result<(), Held> {
        if !self.is_free() {
            return Err(Held);
        }
        if !self.closed {
            self.closed = true;
            self.since = self.last;
        }
        Ok(())
    }

    fn open(&mut self) {
        if self.closed {
            self.cut();
        }
    }

    fn is_closed(&self) -> bool {
        self.closed
    }

    fn is_free(&self) -> bool {
        self.closed || has_passed(COOLING, self.since, self.last)
    }
}

// Whether that span has passed since a time. A clock that went back has passed nothing.
fn has_passed(span: u64, since: u64, time: u64) -> bool
    ensures { result ≡ nat_le (since + span) time }
{
    time >= since && time - since >= span
}
