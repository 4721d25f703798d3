ghost use Rattle.std.specs.Prelude.{◌≡◌, true};
ghost use Rattle.control.specs.PlateRules.{keeps_rules};

use crate::plate_numbers::PlateNumbers;

mod levels;
mod make;

// Five numbers that keep the plate's rules: no other plate exists.
#[derive(Clone, Copy, PartialEq, Eq, Debug)]
pub struct Plate {
    numbers: PlateNumbers,
    ghost ok: { keeps_rules numbers ≡ true },
}
