// A monitor taken to its parts and made from them again, for those who keep it elsewhere.
// Each part comes by itself: a struct of the five would be a monitor again.
ghost use Rattle.std.specs.Prelude.{◌≡◌};
ghost use Rattle.monitor.specs.Calls.{monitor_with};

use crate::monitor::Monitor;
use control::{Plate, State};
use display::Panel;
use gauges::Gauge;
use switches::Switch;

impl<G: Gauge, S: Switch> Monitor<G, S> {
    // A monitor as it was, by its parts. The promises are said of a run from set-up on: parts that no run
    // left are the caller's to answer for.
    pub fn restore(gauge: G, switch: S, plate: Plate, state: State, panel: Panel) -> Monitor<G, S>
        ensures { result ≡ monitor_with gauge switch plate state panel }
    {
        Monitor {
            gauge,
            switch,
            plate,
            state,
            panel,
        }
    }

    pub fn gauge(&self) -> &G
        ensures { result.now ≡ self.now.gauge }
    {
        &self.gauge
    }

    pub fn switch(&self) -> &S
        ensures { result.now ≡ self.now.switch }
    {
        &self.switch
    }

    pub fn plate(&self) -> Plate
        ensures { result ≡ self.now.plate }
    {
        self.plate
    }

    pub fn state(&self) -> State
        ensures { result ≡ self.now.state }
    {
        self.state
    }

    pub fn panel(&self) -> Panel
        ensures { result ≡ self.now.panel }
    {
        self.panel
    }
}
