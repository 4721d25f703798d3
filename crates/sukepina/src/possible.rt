// What every run of calls keeps of a monitor's plate, state and panel.
ghost use Rattle.std.specs.Prelude.{◌≡◌};
ghost use Rattle.control.specs.State.{operate, watched};
ghost use Rattle.sukepina.specs.Possible.{button_possible, core_possible, dark_possible, panel_possible, reading_possible, same_figure, signal_possible, state_possible, times_possible};

use base::TIME_LIMIT;
use control::{Button, FailureMode, Mode, Plate, Signal, State, Watchdog};
use gauges::{Gauge, Reading};
use monitor::Monitor;
use switches::Switch;

// Taken in whole by each call, as `monitor` is, with what looks at the state and the panel. It looks at the monitor
// itself: with a copy of its parts each call took 11 to 15 instructions more.
#[inline(always)]
pub(crate) fn is_possible<G: Gauge, S: Switch>(monitor: &Monitor<G, S>) -> bool
    ensures { result ≡ core_possible monitor.now.plate monitor.now.state monitor.now.panel (G.Gauge.model.reading monitor.now.gauge) }
{
    let state = monitor.state();
    let reading = monitor.gauge().reading();
    state_is_possible(&state)
        && reading_is_possible(&monitor.plate(), &state, reading)
        && panel_is_possible(monitor, reading)
}

// A faulty gauge or a level past a mark leaves no allok, except in the dark.
fn reading_is_possible(plate: &Plate, state: &State, reading: Reading) -> bool
    ensures { result ≡ reading_possible plate.now state.now reading }
{
    !plate.is_bad(reading) || state.failure != FailureMode::Allok || state.mode == Mode::Dark
}

#[inline(always)]
fn state_is_possible(state: &State) -> bool
    ensures { result ≡ state_possible state.now }
{
    times_are_possible(state)
        && signal_is_possible(state)
        && (state.mode != Mode::Dark || dark_is_possible(state))
}

fn times_are_possible(state: &State) -> bool
    ensures { result ≡ times_possible state.now }
{
    state.time <= TIME_LIMIT
        && state.entered <= TIME_LIMIT
        && button_is_possible(state.reset, state.time)
        && button_is_possible(state.test, state.time)
}

fn button_is_possible(button: Button, time: u64) -> bool
    ensures { result ≡ button_possible button time }
{
    button.since <= TIME_LIMIT && (button.down || button.since == time)
}

fn signal_is_possible(state: &State) -> bool
    ensures { result ≡ signal_possible state.now }
{
    state.signal == Signal::Shutdown
        || (state.failure == FailureMode::Allok
            && matches!(state.mode, Mode::Operating | Mode::Shutdown))
}

fn dark_is_possible(state: &State) -> bool
    ensures { result ≡ dark_possible state.now }
{
    state.failure == FailureMode::Allok
        && state.signal == Signal::Shutdown
        && state.watchdog == Watchdog::Shut
        && !state.reset.down
        && !state.test.down
        && state.entered == state.time
}

// Showing the last step again changes nothing.
#[inline(always)]
#[tactic(auto, using(crate::proofs::Kept::same_beq))]
fn panel_is_possible<G: Gauge, S: Switch>(monitor: &Monitor<G, S>, reading: Reading) -> bool
    ensures { result ≡ panel_possible monitor.now.plate monitor.now.state monitor.now.panel reading }
{
    let state = monitor.state();
    let panel = monitor.panel();
    let again = panel.next(&monitor.plate(), state.mode, &state, reading);
    again == panel
}
