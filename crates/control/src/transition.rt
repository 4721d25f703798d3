ghost use Rattle.std.specs.Prelude.{◌≡◌};
ghost use Rattle.control.specs.Transition.{next_state, started, moved, clock_fails, worse, next_signal, conditions, next_watchdog, mode_after, entered_after};

use crate::button::Button;
use crate::mode::{FailureMode, Mode, Signal, Watchdog};
use crate::mode_table::{Conditions, next_mode};
use crate::plate::Plate;
use crate::state::State;
use gauges::Reading;
use records::Step;

// A step this much later than the one before, or more, shuts the watchdog.
const WATCHDOG_TIME: u64 = 500;

impl State {
    // The state after an accepted step; `reading` is the gauge's, once it has taken the step's words.
    // Plate and reading are not joined in a struct: the one is the monitor's for good, the other new at each step.
    pub fn next(&self, plate: &Plate, step: Step, reading: Reading) -> State
        ensures { result ≡ next_state plate.now self.now step reading }
    {
        if !step.power {
            return State::dark(step.time);
        }
        match self.mode {
            Mode::Dark => start(plate, step, reading),
            _ => self.moved(plate, step, reading),
        }
    }

    // A power-on step that is no start.
    fn moved(&self, plate: &Plate, step: Step, reading: Reading) -> State
        ensures { result ≡ moved plate.now self.now step reading }
    {
        let time = step.time;
        let failed = step.memory_failed || self.clock_fails(step);
        let failure = worse(self.failure, failed, plate.is_bad(reading));
        let reset = self.reset.next(step.reset, time);
        let test = self.test.next(step.self_test, time);
        let mode = self.mode_after(failure, self.conditions(plate, reading, time, reset, test));
        State {
            mode,
            failure,
            signal: next_signal(mode, failure, step.reset, self.signal),
            watchdog: self.next_watchdog(time),
            time,
            entered: self.entered_after(mode, time),
            reset,
            test,
        }
    }

    // The mode moves by the table while all is well, and stays otherwise.
    fn mode_after(&self, failure: FailureMode, c: Conditions) -> Mode
        ensures { result ≡ mode_after self.now failure c }
    {
        match failure {
            FailureMode::Allok => next_mode(self.mode, c),
            _ => self.mode,
        }
    }

    // When the mode that this step leads to was entered.
    fn entered_after(&self, mode: Mode, time: u64) -> u64
        ensures { result ≡ entered_after self.now mode time }
    {
        if mode == self.mode {
            self.entered
        } else {
            time
        }
    }

    // Told, or a time that is not later than the step before.
    fn clock_fails(&self, step: Step) -> bool
        ensures { result ≡ clock_fails self.now step }
    {
        step.clock_failed || step.time <= self.time
    }

    fn next_watchdog(&self, time: u64) -> Watchdog
        ensures { result ≡ next_watchdog self.now time }
    {
        if time.saturating_sub(self.time) >= WATCHDOG_TIME {
            Watchdog::Shut
        } else {
            self.watchdog
        }
    }

    // What the mode table looks at; `reset` and `test` are the buttons at this step.
    fn conditions(
        &self,
        plate: &Plate,
        reading: Reading,
        time: u64,
        reset: Button,
        test: Button,
    ) -> Conditions
        ensures { result ≡ conditions plate.now self.now reading time reset test }
    {
        Conditions {
            dwell: time.saturating_sub(self.entered),
            testing: test.down,
            tested: test.held(time),
            reset: reset.held(time),
            out: plate.is_out_of_limits(reading),
            settled: plate.is_settled(reading),
        }
    }
}

// A power-on step in the dark.
fn start(plate: &Plate, step: Step, reading: Reading) -> State
    ensures { result ≡ started plate.now step reading }
{
    let time = step.time;
    let failed = step.memory_failed || step.clock_failed;
    State {
        mode: Mode::Standby,
        failure: worse(FailureMode::Allok, failed, plate.is_bad(reading)),
        signal: Signal::Shutdown,
        watchdog: Watchdog::Operate,
        time,
        entered: time,
        reset: Button::up(time).next(step.reset, time),
        test: Button::up(time).next(step.self_test, time),
    }
}

fn worse(failure: FailureMode, failed: bool, bad: bool) -> FailureMode
    ensures { result ≡ worse failure failed bad }
{
    let found = if failed {
        FailureMode::Hardfail
    } else if bad {
        FailureMode::Badlevdev
    } else {
        FailureMode::Allok
    };
    failure.max(found)
}

// `reset` is whether reset is down at this step.
fn next_signal(mode: Mode, failure: FailureMode, reset: bool, signal: Signal) -> Signal
    ensures { result ≡ next_signal mode failure reset signal }
{
    match (mode, failure) {
        (Mode::Operating, FailureMode::Allok) if !reset => Signal::Operate,
        (Mode::Operating | Mode::Shutdown, FailureMode::Allok) => signal,
        _ => Signal::Shutdown,
    }
}
