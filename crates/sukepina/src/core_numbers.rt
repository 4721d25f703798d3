ghost use Rattle.std.specs.Prelude.{◌≡◌};
ghost use Rattle.sukepina.specs.Boundary.{StandsFor};
ghost use Rattle.sukepina.specs.Core.{core_of, either, every, failure_number, failure_of, flag_of, mode_number, mode_of, numbers_of};

use crate::numbers::CoreNumbers;
use control::{Button, FailureMode, Mode, Plate, Signal, State, Watchdog};
use display::{Panel, Warnings};
use gauges::Gauge;
use monitor::Monitor;
use switches::Switch;

// A monitor but for its gauge and its switch.
#[derive(Clone, Copy)]
pub(crate) struct Core {
    pub(crate) plate: Plate,
    pub(crate) state: State,
    pub(crate) panel: Panel,
}

impl Core {
    pub(crate) fn of<G: Gauge, S: Switch>(monitor: &Monitor<G, S>) -> Core
        ensures { result ≡ core_of monitor.now }
    {
        Core {
            plate: monitor.plate(),
            state: monitor.state(),
            panel: monitor.panel(),
        }
    }
}

impl CoreNumbers {
    pub(crate) fn new(core: &Core) -> CoreNumbers
        ensures { result ≡ numbers_of core.now }
    {
        let Core {
            plate,
            state,
            panel,
        } = *core;
        let figure = panel.figure;
        CoreNumbers {
            time: state.time,
            entered: state.entered,
            reset_since: state.reset.since,
            test_since: state.test.since,
            plate: plate.numbers(),
            mode: mode_number(state.mode),
            failure: failure_number(state.failure),
            signal: u32::from(state.signal == Signal::Operate),
            watchdog: u32::from(state.watchdog == Watchdog::Operate),
            reset_down: u32::from(state.reset.down),
            test_down: u32::from(state.test.down),
            high: u32::from(panel.warnings.high),
            low: u32::from(panel.warnings.low),
            alarm: u32::from(panel.warnings.alarm),
            figure,
        }
    }

    // The parts that have these numbers, or none if there are none. Taken in whole by each call, as `monitor` is.
    #[inline(always)]
    pub(crate) fn parts(&self) -> Option<Core>
        ensures { StandsFor numbers_of every self.now result }
    {
        let figure = self.figure;
        Some(Core {
            plate: Plate::new(self.plate).ok()?,
            state: State {
                mode: mode_of(self.mode)?,
                failure: failure_of(self.failure)?,
                signal: either(Signal::Shutdown, Signal::Operate, self.signal)?,
                watchdog: either(Watchdog::Shut, Watchdog::Operate, self.watchdog)?,
                time: self.time,
                entered: self.entered,
                reset: Button {
                    down: flag_of(self.reset_down)?,
                    since: self.reset_since,
                },
                test: Button {
                    down: flag_of(self.test_down)?,
                    since: self.test_since,
                },
            },
            panel: Panel {
                warnings: Warnings {
                    high: flag_of(self.high)?,
                    low: flag_of(self.low)?,
                    alarm: flag_of(self.alarm)?,
                },
                figure,
            },
        })
    }
}

// C's numbers for what `control` knows by name, and back. Functions, since its types can have no `From` or `TryFrom`
// here; written out, so that C's numbers do not follow the order of its variants.

fn mode_number(mode: Mode) -> u32
    ensures { result ≡ mode_number mode }
{
    match mode {
        Mode::Dark => 0,
        Mode::Standby => 1,
        Mode::Operating => 2,
        Mode::Shutdown => 3,
        Mode::Test => 4,
    }
}

fn mode_of(number: u32) -> Option<Mode>
    ensures { result ≡ mode_of number }
{
    match number {
        0 => Some(Mode::Dark),
        1 => Some(Mode::Standby),
        2 => Some(Mode::Operating),
        3 => Some(Mode::Shutdown),
        4 => Some(Mode::Test),
        _ => None,
    }
}

fn failure_number(failure: FailureMode) -> u32
    ensures { result ≡ failure_number failure }
{
    match failure {
        FailureMode::Allok => 0,
        FailureMode::Badlevdev => 1,
        FailureMode::Hardfail => 2,
    }
}

fn failure_of(number: u32) -> Option<FailureMode>
    ensures { result ≡ failure_of number }
{
    match number {
        0 => Some(FailureMode::Allok),
        1 => Some(FailureMode::Badlevdev),
        2 => Some(FailureMode::Hardfail),
        _ => None,
    }
}

// A yes or no: the way there is `u32::from`.
pub(crate) fn flag_of(number: u32) -> Option<bool>
    ensures { result ≡ flag_of number }
{
    either(false, true, number)
}

// The first value for 0, the second for 1.
fn either<T: Copy>(first: T, second: T, number: u32) -> Option<T>
    ensures { result ≡ either first second number }
{
    if number > 1 {
        return None;
    }
    Some(if number == 0 { first } else { second })
}
