ghost use Rattle.std.specs.Prelude.{◌≡◌};
ghost use Rattle.gauges.specs.EchoWord.{gap_at};

use crate::reading::Cause;

// The bits of an `f32` from the lowest on: 23 of its digits, 8 of its exponent, its sign.
pub(crate) const DIGITS: u32 = 0x80_0000;

pub(crate) const EXPONENTS: u32 = 0x100;

const ALL_ONES: u32 = 0xff;

// The gap in cm that word A, a bit pattern of an `f32`, gives: from 0 to the mount height.
#[tactic(auto, using(crate::proofs::Word::no_nan))]
pub(crate) fn gap_at(a: u32, mount: f32) -> Result<f32, Cause>
    ensures { result ≡ gap_at a mount }
{
    if a / DIGITS % EXPONENTS == ALL_ONES {
        return Err(Cause::Lost);
    }
    let gap = f32::from_bits(a);
    if gap < 0.0 || mount < gap {
        return Err(Cause::Reach);
    }
    Ok(gap)
}
