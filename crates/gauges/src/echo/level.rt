ghost use Rattle.std.specs.Prelude.{◌≡◌, true};
ghost use Rattle.std.specs.Float.{binary32};
ghost use Rattle.std.specs.Float.Ieee.{sub};
ghost use Rattle.gauges.specs.Height.{in_height, units};

use crate::echo::word::{DIGITS, EXPONENTS};

const UNITS_PER_CM: u64 = 100_000;

// The exponent at which the digits of an `f32` count whole cm.
const WHOLE: u32 = 150;

// Digits times units per cm have at most 41 bits: a shift above 40 leaves nothing.
const LAST_SHIFT: u32 = 40;

// The level at a gap in reach. The difference is rounded once, to an `f32`; its exact value in
// units is rounded down, over whole numbers, from its bits.
#[tactic(auto, using(crate::proofs::Floor::level_floor, crate::specs::EchoRange::units_limit))]
pub(crate) fn level(mount: f32, gap: f32) -> u32
    requires { in_height (sub binary32 mount gap) ≡ true }
    ensures { result ≡ units (sub binary32 mount gap) }
{
    let height = mount - gap;
    let bits = height.to_bits();
    let shift = WHOLE - bits / DIGITS % EXPONENTS;
    if shift > LAST_SHIFT {
        return 0;
    }
    // Here the exponent is not 0, so there is a leading digit, which the bits leave out.
    let digits = u64::from(DIGITS + bits % DIGITS);
    let units = (digits * UNITS_PER_CM) >> shift;
    units as u32
}
