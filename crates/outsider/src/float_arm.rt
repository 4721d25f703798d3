ghost use Rattle.std.specs.Prelude.{◌≡◌};
ghost use Rattle.outsider.specs.FloatArm.{float_arm, new_arm, arm_reading};
ghost use Rattle.std.proofs.Common.{rules};

use gauges::{Cause, Gauge, Reading, fresh_fault};

// The last word of the encoder, and the units that one step of it stands for.
const LAST_WORD: u32 = 4_095;

const UNITS_PER_STEP: u32 = 2_400;

// A float on an arm with a 12-bit encoder. It keeps the last word A; its reading follows from that.
// Not one type with the pressure cell, which works alike: whoever makes a gauge has the public contracts alone.
#[derive(Clone, Copy)]
pub struct FloatArm {
    word: Option<u32>,
}

impl FloatArm {
    // An arm that has taken nothing yet.
    pub fn new() -> FloatArm
        ensures { result ≡ new_arm }
    {
        FloatArm { word: None }
    }
}

impl Gauge for FloatArm {
    ghost model = { float_arm };

    ghost in_range = { Prim.search rules };

    fn take(&mut self, a: u32, b: u32) {
        let _ = b;
        self.word = Some(a);
    }

    fn reading(&self) -> Reading {
        let word = self.word.ok_or(Cause::Nothing)?;
        reading_at(word)
    }
}

// What the arm reads at word `a`.
fn reading_at(a: u32) -> Reading
    ensures { result ≡ arm_reading a }
{
    if a > LAST_WORD {
        return fresh_fault(Cause::Scale);
    }
    Ok(UNITS_PER_STEP * a)
}
