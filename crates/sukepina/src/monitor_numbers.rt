ghost use Rattle.std.specs.Prelude.{◌≡◌, Bool};
ghost use Rattle.monitor.specs.declared.monitor.Monitor.{Monitor};
ghost use Rattle.sukepina.specs.Boundary.{Distinct, StandsFor, StaysPossible};

use gauges::Gauge;
use monitor::Monitor;
use switches::Switch;

// A monitor kept as plain numbers in its caller's memory. Not every monitor is possible, and what every run of calls
// keeps of a monitor is for the implementer to say.
pub(crate) trait MonitorNumbers: Copy {
    type G: Gauge + Drop;

    type S: Switch + Drop;

    ghost numbers: { Monitor Self.G Self.S → Self };

    ghost possible: { Monitor Self.G Self.S → Bool };

    // The numbers of a monitor.
    fn of(monitor: &Monitor<Self::G, Self::S>) -> Self
        ensures { result ≡ numbers monitor.now };

    // The possible monitor that has these numbers, or none if there is none.
    fn monitor(&self) -> Option<Monitor<Self::G, Self::S>>
        ensures { StandsFor numbers possible self.now result };

    // No two possible monitors have the same numbers, and an accepted step leaves a possible monitor possible.
    // A function that does nothing, since the proofs are too long for ghost members.
    fn laws()
        ensures distinct { Distinct numbers possible }
        ensures stays { StaysPossible Self.G.Gauge.model Self.S.Switch.model possible };
}
