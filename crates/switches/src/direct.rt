ghost use Rattle.std.specs.Prelude.{◌≡◌, Bool, true, false};
ghost use Rattle.switches.specs.Direct.{direct, contact_at};
ghost use Rattle.std.proofs.Common.{rules};

use crate::held::Held;
use crate::switch::Switch;

// A pump contact worked directly. It is always free, and ticks mean nothing to it.
#[derive(Clone, Copy)]
pub struct DirectContact {
    closed: bool,
}

impl DirectContact {
    // A contact as it is found.
    pub fn new(closed: bool) -> DirectContact
        ensures { result ≡ contact_at closed }
    {
        DirectContact { closed }
    }
}

impl Switch for DirectContact {
    ghost model = { direct };

    ghost tick_never_closes = { Prim.search rules };

    ghost free_closes = { Prim.search rules };

    ghost open_opens = { Prim.search rules };

    ghost closed_is_free = { Prim.search rules };

    fn tick(&mut self, time: u64) {
        let _ = time;
    }

    fn close(&mut self) -> Result<(), Held> {
        self.closed = true;
        Ok(())
    }

    fn open(&mut self) {
        self.closed = false;
    }

    fn is_closed(&self) -> bool {
        self.closed
    }

    fn is_free(&self) -> bool {
        true
    }
}
