ghost use Rattle.std.specs.Prelude.{◌≡◌};
ghost use Rattle.monitor.specs.Calls.{set_up};
ghost use Rattle.monitor.specs.Promises.{Promises};

use crate::monitor::Monitor;
use control::{Plate, State};
use display::Panel;
use gauges::Gauge;
use switches::Switch;

impl<G: Gauge, S: Switch> Monitor<G, S> {
    // A dark monitor, its switch opened. Gauge and switch may come in any state.
    // It keeps the three promises over every run of calls.
    pub fn set_up(gauge: G, mut switch: S, plate: Plate) -> Monitor<G, S>
        ensures value { result ≡ set_up S.Switch.model gauge switch plate }
        ensures promises { Promises G.Gauge.model S.Switch.model plate gauge result }
    {
        switch.open();
        Monitor {
            gauge,
            switch,
            plate,
            state: State::dark(0),
            panel: Panel::dark(),
        }
    }
}
