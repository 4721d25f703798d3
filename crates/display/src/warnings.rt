ghost use Rattle.std.specs.Prelude.{◌≡◌, ◌-◌};
ghost use Rattle.display.specs.Warnings.{off, next_warnings, by_level, in_test, flashing, lamp};

use control::{FailureMode, Mode, Plate, State};
use gauges::Reading;

// Half the period of the badlevdev flashing, in milliseconds.
const FLASH_TIME: u64 = 500;
// In test: the high window is on before the first, the low window from the first to the second, the
// alarm up to the second.
const HIGH_TEST_END: u64 = 2_000;

const LOW_TEST_END: u64 = 4_000;

// The high window, the low window and the alarm: on, or audible, if true.
#[derive(Clone, Copy, PartialEq, Eq, Debug)]
pub struct Warnings {
    pub high: bool,
    pub low: bool,
    pub alarm: bool,
}

impl Warnings {
    // Windows off, alarm silent.
    pub fn off() -> Warnings
        ensures { result ≡ off }
    {
        Warnings {
            high: false,
            low: false,
            alarm: false,
        }
    }

    // The warnings after a step that led from mode `before` to the state `after`.
    pub fn next(self, plate: &Plate, before: Mode, after: &State, reading: Reading) -> Warnings
        ensures { result ≡ next_warnings plate.now self before after.now reading }
    {
        match (after.failure, after.mode) {
            (FailureMode::Hardfail, _) => Warnings {
                high: true,
                low: true,
                alarm: true,
            },
            (FailureMode::Badlevdev, _) => flashing(after.time),
            (FailureMode::Allok, Mode::Dark) => Warnings::off(),
            (FailureMode::Allok, Mode::Standby) => self,
            (FailureMode::Allok, Mode::Test) => in_test(after.time.saturating_sub(after.entered)),
            (FailureMode::Allok, Mode::Operating) => self.by_level(
                plate,
                reading,
                before != Mode::Operating,
            ),
            (FailureMode::Allok, Mode::Shutdown) => self.by_level(plate, reading, false),
        }
    }

    // Each goes on by its own condition, off on entering operating, and stays otherwise.
    fn by_level(self, plate: &Plate, reading: Reading, entered: bool) -> Warnings
        ensures { result ≡ by_level plate.now self reading entered }
    {
        Warnings {
            high: lamp(plate.is_high(reading), entered, self.high),
            low: lamp(plate.is_low(reading), entered, self.low),
            alarm: lamp(plate.is_out_of_limits(reading), entered, self.alarm),
        }
    }
}

fn lamp(lit: bool, entered: bool, before: bool) -> bool
    ensures { result ≡ lamp lit entered before }
{
    lit || (!entered && before)
}

fn in_test(dwell: u64) -> Warnings
    ensures { result ≡ in_test dwell }
{
    Warnings {
        high: dwell < HIGH_TEST_END,
        low: HIGH_TEST_END <= dwell && dwell < LOW_TEST_END,
        alarm: dwell <= LOW_TEST_END,
    }
}

fn flashing(time: u64) -> Warnings
    ensures { result ≡ flashing time }
{
    let lit = time / FLASH_TIME % 2 == 0;
    Warnings {
        high: lit,
        low: lit,
        alarm: true,
    }
}
