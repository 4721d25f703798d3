ghost use Rattle.std.specs.Prelude.{◌≡◌};
ghost use Rattle.switches.specs.Rest.{resting, new_rest, rest_with, rested, opening_after};
ghost use Rattle.std.proofs.Common.{rules};

use crate::held::Held;
use crate::rest_time::RestTime;
use crate::switch::Switch;

// A layer over any switch that lets the pump rest: once the contact went from closed to open, it is not
// closed again before the rest is over. It rests before a closing and never before an opening.
#[derive(Drop)]
pub struct Rest<S> {
    below: S,
    rest: RestTime,
    // the time of the last tick, 0 before any
    last: u64,
    // the tick at which the contact last went from closed to open
    opening: Option<u64>,
}

impl<S: Switch> Rest<S> {
    // A rest layer over `below`, which may come in any state.
    pub fn new(below: S, rest: RestTime) -> Rest<S>
        ensures { result ≡ new_rest below rest }
    {
        Rest {
            below,
            rest,
            last: 0,
            opening: None,
        }
    }

    // A layer as it was, by its parts.
    pub fn restore(below: S, rest: RestTime, last: u64, opening: Option<u64>) -> Rest<S>
        ensures { result ≡ rest_with below rest last opening }
    {
        Rest {
            below,
            rest,
            last,
            opening,
        }
    }

    // The switch below.
    pub fn below(&self) -> &S
        ensures { result.now ≡ self.now.below }
    {
        &self.below
    }

    pub fn rest(&self) -> RestTime
        ensures { result ≡ self.now.rest }
    {
        self.rest
    }

    // The time of the last tick, 0 before any.
    pub fn last_tick(&self) -> u64
        ensures { result ≡ self.now.last }
    {
        self.last
    }

    // The opening tick, if there was an opening.
    pub fn opening_tick(&self) -> Option<u64>
        ensures { result ≡ self.now.opening }
    {
        self.opening
    }

    // Whether the rest since the last opening is over.
    fn is_rested(&self) -> bool
        ensures { result ≡ rested self.now }
    {
        self.opening.is_none_or(|opening| self.last >= opening
            && self.last - opening >= self.rest.millis())
    }
}

impl<S: Switch> Switch for Rest<S> {
    ghost model = { resting S.Switch.model };

    ghost tick_never_closes = { Prim.search rules };

    ghost free_closes = { Prim.search rules };

    ghost open_opens = { Prim.search rules };

    ghost closed_is_free = { Prim.search rules };

    fn tick(&mut self, time: u64) {
        let was_closed = self.below.is_closed();
        self.below.tick(time);
        self.opening = opening_after(
            self.opening,
            was_closed && !self.below.is_closed(),
            time < self.last,
            time,
        );
        self.last = time;
    }

    fn close(&mut self) -> Result<(), Held> {
        if !self.is_free() {
            return Err(Held);
        }
        self.below.close()
    }

    fn open(&mut self) {
        let was_closed = self.below.is_closed();
        self.below.open();
        self.opening = opening_after(self.opening, was_closed, false, self.last);
    }

    fn is_closed(&self) -> bool {
        self.below.is_closed()
    }

    fn is_free(&self) -> bool {
        self.is_closed() || (self.below.is_free() && self.is_rested())
    }
}

// The opening tick after a call at that time: a new one if the contact opened; moved if the time went back
// and there was one.
fn opening_after(opening: Option<u64>, opened: bool, back: bool, time: u64) -> Option<u64>
    ensures { result ≡ opening_after opening opened back time }
{
    match opening {
        _ if opened => Some(time),
        Some(_) if back => Some(time),
        stays => stays,
    }
}
