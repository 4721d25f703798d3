ghost use Rattle.std.specs.Prelude.{◌≡◌, true};
ghost use Rattle.gauges.specs.Height.{in_mount};
ghost use Rattle.gauges.specs.Model.{is_in_range};

use crate::reading::Reading;

mod gauge;
mod level;
mod word;

// A gauge above the water, which measures the gap to it by an echo. The level is its mount height
// less the gap. It keeps its last reading.
#[derive(Clone, Copy)]
pub struct Echo {
    // in cm
    mount: f32,
    last: Reading,
    ghost mounted: { in_mount mount ≡ true },
    ghost ranged: { is_in_range last ≡ true },
}
