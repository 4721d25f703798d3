ghost use Rattle.std.specs.Prelude.{◌≡◌};
ghost use Rattle.gauges.specs.Model.{Model, InRange};

use crate::reading::Reading;

// A gauge means one reading, which only taking words can change.
//
// An implementer shows:
// - `take` never refuses, and state and words alone fix the state after it (`taken`);
// - `reading` answers the reading that the state means, and changes nothing;
// - a level is never above 10,000,000 units.
// A caller may rely on these, and on nothing else. The two words come singly: a pair swaps them for its second gauge.
pub trait Gauge {
    ghost model: { Model Self };

    fn take(&mut self, a: u32, b: u32)
        ensures { self.new ≡ model.taken self.old a b };

    fn reading(&self) -> Reading
        ensures { result ≡ model.reading self.now };

    ghost in_range: { (g : Self) → InRange (model.reading g) };
}
