ghost use Rattle.std.specs.Prelude.{◌≡◌};
ghost use Rattle.gauges.specs.Echo.{echo, Restored, SetUp};
ghost use Rattle.gauges.specs.EchoWord.{echo_reading};
ghost use Rattle.gauges.specs.Height.{in_mount};
ghost use Rattle.gauges.specs.Model.{is_in_range};
ghost use Rattle.std.proofs.Common.{rules, arith};

use crate::echo::Echo;
use crate::echo::level::level;
use crate::echo::word::gap_at;
use crate::gauge::Gauge;
use crate::reading::{Cause, Reading, fresh_fault};
use base::Refusal;

// The mount height in cm.
const LOWEST_MOUNT: f32 = 1.0;

const HIGHEST_MOUNT: f32 = 100.0;

// The largest level, in units.
const LEVEL_LIMIT: u32 = 10_000_000;

impl Echo {
    // A gauge that has taken nothing yet. A mount out of range is refused, a NaN too.
    pub fn new(mount: f32) -> Result<Echo, Refusal>
        ensures { SetUp mount result }
    {
        if is_mount(mount) {
            Ok(Echo {
                mount,
                last: fresh_fault(Cause::Nothing),
            })
        } else {
            Err(Refusal::Setting)
        }
    }

    // A gauge as it was, by its mount and its last reading, if both are in range.
    pub fn restore(mount: f32, last: Reading) -> Option<Echo>
        ensures { Restored mount last result }
    {
        if !is_mount(mount) || !is_in_range(last) {
            return None;
        }
        Some(Echo { mount, last })
    }

    // In cm.
    pub fn mount(&self) -> f32
        ensures { result ≡ self.now.mount }
    {
        self.mount
    }

    // What the gauge reads at word `a`.
    #[tactic(auto, using(crate::specs::EchoRange::height_in))]
    fn reading_at(&self, a: u32) -> Reading
        ensures { result ≡ echo_reading self.now.mount a }
    {
        let gap = gap_at(a, self.mount)?;
        Ok(level(self.mount, gap))
    }
}

#[tactic(auto, using(crate::proofs::FloatRange::at_most))]
fn is_mount(mount: f32) -> bool
    ensures { result ≡ in_mount mount }
{
    (LOWEST_MOUNT..=HIGHEST_MOUNT).contains(&mount)
}

fn is_in_range(reading: Reading) -> bool
    ensures { result ≡ is_in_range reading }
{
    reading.map_or(true, |level| level <= LEVEL_LIMIT)
}

impl Gauge for Echo {
    ghost model = { echo };

    ghost in_range = { Prim.search rules };

    #[tactic(auto, using(crate::specs::EchoRange::echo_in_range))]
    fn take(&mut self, a: u32, b: u32) {
        let _ = b;
        self.last = self.reading_at(a);
    }

    fn reading(&self) -> Reading {
        self.last
    }
}
