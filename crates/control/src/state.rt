ghost use Rattle.std.specs.Prelude.{◌≡◌};
ghost use Rattle.control.specs.State.{dark, drives};

use crate::button::Button;
use crate::mode::{FailureMode, Mode, Signal, Watchdog};

// What the monitor keeps from one accepted step to the next, apart from the display.
#[derive(Clone, Copy, PartialEq, Eq, Debug)]
pub struct State {
    pub mode: Mode,
    pub failure: FailureMode,
    pub signal: Signal,
    pub watchdog: Watchdog,
    // the time of the last accepted step, 0 before any
    pub time: u64,
    // when the mode was entered
    pub entered: u64,
    pub reset: Button,
    pub test: Button,
}

impl State {
    // The dark: power is off, or no step was accepted yet.
    pub fn dark(time: u64) -> State
        ensures { result ≡ dark time }
    {
        State {
            mode: Mode::Dark,
            failure: FailureMode::Allok,
            signal: Signal::Shutdown,
            watchdog: Watchdog::Shut,
            time,
            entered: time,
            reset: Button::up(time),
            test: Button::up(time),
        }
    }

    // Whether signal and watchdog let the pump run.
    pub fn drives(&self) -> bool
        ensures { result ≡ drives self.now }
    {
        self.signal == Signal::Operate && self.watchdog == Watchdog::Operate
    }
}
