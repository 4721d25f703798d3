ghost use Rattle.std.specs.Prelude.{◌≡◌, ◌+◌, ◌%◌};
ghost use Rattle.display.specs.Figure.{tenths_figure, level_figure, test_figure, figure_of};

use control::{FailureMode, Mode, State};
use gauges::Reading;

// No level.
pub(crate) const BLANK: &[u8; 4] = b"--.-";

// A tenth of a centimetre in units, and half of it.
const TENTH: u64 = 10_000;

const HALF_TENTH: u64 = 5_000;

// In test the figure counts up one stage a second between these times in mode.
const STAGES_BEGIN: u64 = 4_000;

const STAGES_END: u64 = 13_000;

const STAGE_TIME: u64 = 1_000;
// 11.1 in tenths
const STAGE_TENTHS: u64 = 111;

// The four characters that a state and the reading behind it show.
pub(crate) fn figure(state: &State, reading: Reading) -> [u8; 4]
    ensures { result ≡ figure_of state.now reading }
{
    match (state.failure, state.mode) {
        (FailureMode::Allok, Mode::Test) => test_figure(state.time.saturating_sub(state.entered)),
        (FailureMode::Allok, Mode::Standby | Mode::Operating | Mode::Shutdown) => level_figure(
            reading,
        ),
        _ => *BLANK,
    }
}

// The level to the nearest tenth, halves up.
fn level_figure(reading: Reading) -> [u8; 4]
    ensures { result ≡ level_figure reading }
{
    match reading {
        Ok(level) => tenths_figure((u64::from(level) + HALF_TENTH) / TENTH),
        Err(_) => *BLANK,
    }
}

fn test_figure(dwell: u64) -> [u8; 4]
    ensures { result ≡ test_figure dwell }
{
    if STAGES_BEGIN <= dwell && dwell < STAGES_END {
        tenths_figure(STAGE_TENTHS * ((dwell - STAGES_BEGIN) / STAGE_TIME))
    } else {
        tenths_figure(0)
    }
}

// Two digits, a point, one digit.
fn tenths_figure(tenths: u64) -> [u8; 4]
    ensures { result ≡ tenths_figure tenths }
{
    [digit(tenths / 100), digit(tenths / 10), b'.', digit(tenths)]
}

// The last decimal digit of a number, as a character.
fn digit(n: u64) -> u8
    ensures { result ≡ 48 + n % 10 }
{
    b'0' + (n % 10) as u8
}
