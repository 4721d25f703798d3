ghost use Rattle.std.specs.Prelude.{◌≡◌, true, false, MatchResult};
ghost use Rattle.base.specs.declared.refusal.Refusal.TheVariants.{Setting};
ghost use Rattle.control.specs.Plate.{standard};
ghost use Rattle.control.specs.PlateRules.{keeps_rules};

use crate::plate::Plate;
use crate::plate_numbers::PlateNumbers;
use base::Refusal;

// The largest high mark: above it a level could not be shown in three digits.
const HIGHEST_MARK: u32 = 9_990_000;

impl Plate {
    // A plate with these numbers, or refusal 6 if they break a rule.
    pub fn new(numbers: PlateNumbers) -> Result<Plate, Refusal>
        ensures { MatchResult result (λ p. (p.numbers ≡ numbers) × (keeps_rules numbers ≡ true)) (λ e. (e ≡ Setting) × (keeps_rules numbers ≡ false)) }
    {
        if keeps_rules(numbers) {
            Ok(Plate { numbers })
        } else {
            Err(Refusal::Setting)
        }
    }

    // The published water level monitor's plate: limits at 14 and 26 cm, marks one centimetre beyond.
    pub fn standard() -> Plate
        ensures { result ≡ standard }
    {
        let numbers = PlateNumbers {
            low_mark: 1_300_000,
            low_limit: 1_400_000,
            high_limit: 2_600_000,
            high_mark: 2_700_000,
            hysteresis: 50_000,
        };
        Plate { numbers }
    }

    pub fn numbers(&self) -> PlateNumbers
        ensures { result ≡ self.now.numbers }
    {
        self.numbers
    }
}

// The five rules, in 64 bits so that no sum wraps.
fn keeps_rules(n: PlateNumbers) -> bool
    ensures { result ≡ keeps_rules n }
{
    n.low_mark < n.low_limit
        && u64::from(n.low_limit) + 2 * u64::from(n.hysteresis) <= u64::from(n.high_limit)
        && n.high_limit < n.high_mark
        && n.high_mark <= HIGHEST_MARK
        && n.hysteresis >= 1
}
