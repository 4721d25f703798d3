ghost use Rattle.std.specs.Prelude.{◌≡◌};
ghost use Rattle.control.specs.ModeTable.{next_mode};

use crate::mode::Mode;

// Times of the mode table, in milliseconds.
const TEST_PRESS: u64 = 500;

const RESET_PRESS: u64 = 3_000;

const SHUTDOWN_TIME: u64 = 200;

const TEST_TIME: u64 = 14_000;

// What one step tells the mode table.
#[derive(Clone, Copy, PartialEq, Eq, Debug)]
pub struct Conditions {
    // the time in mode
    pub dwell: u64,
    // self test is down, and its button time; not an Option, since each row asks the one or the other, and never both
    pub testing: bool,
    pub tested: u64,
    // the reset's button time
    pub reset: u64,
    // the level is out of limits; it is settled
    pub out: bool,
    pub settled: bool,
}

// The mode that the table leads to: the first line that applies is taken.
pub(crate) fn next_mode(mode: Mode, c: Conditions) -> Mode
    ensures { result ≡ next_mode mode c }
{
    match mode {
        Mode::Operating | Mode::Shutdown | Mode::Standby if c.tested > TEST_PRESS => Mode::Test,
        Mode::Operating if !c.testing && c.out => Mode::Shutdown,
        Mode::Shutdown if !c.testing && c.dwell >= SHUTDOWN_TIME => Mode::Standby,
        Mode::Shutdown if !c.testing && c.dwell < SHUTDOWN_TIME && c.settled => Mode::Operating,
        Mode::Standby if c.reset > RESET_PRESS && c.settled => Mode::Operating,
        Mode::Test if c.dwell > TEST_TIME => Mode::Standby,
        stays => stays,
    }
}
