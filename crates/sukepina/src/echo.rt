ghost use Rattle.std.specs.Prelude.{◌≡◌};
ghost use Rattle.sukepina.specs.Boundary.{StandsFor};
ghost use Rattle.sukepina.specs.Calls.{call_number};
ghost use Rattle.sukepina.specs.Echo.{EchoMonitor, EchoSetUp, Resting, cause_read, echo_numbers, echo_possible, echo_read, fault_number, gauge_possible, opening_possible, reading_numbers, rest_possible, switch_possible, word_fits};

use crate::call_error::CallError;
use crate::core_numbers::{Core, flag_of};
use crate::monitor_numbers::MonitorNumbers;
use crate::numbers::{CoreNumbers, EchoNumbers};
use crate::possible::is_possible;
use control::{Mode, Plate, PlateNumbers, State};
use gauges::{Cause, Echo, Gauge, Reading, fresh_fault};
use monitor::Monitor;
use switches::{CLOSED_WORD, DriveWord, OPEN_WORD, Rest, RestTime};

impl MonitorNumbers for EchoNumbers {
    type G = Echo;

    type S = Rest<DriveWord>;

    ghost numbers = { echo_numbers };

    ghost possible = { echo_possible };

    fn of(monitor: &Monitor<Echo, Rest<DriveWord>>) -> EchoNumbers {
        let switch = monitor.switch();
        let opening = switch.opening_tick();
        let reading = monitor.gauge().reading();
        EchoNumbers {
            core: CoreNumbers::new(&Core::of(monitor)),
            rest: switch.rest().millis(),
            last_tick: switch.last_tick(),
            opening: opening.unwrap_or(0),
            opened: u32::from(opening.is_some()),
            mount: monitor.gauge().mount(),
            fault: fault_number(reading),
            level: reading.unwrap_or(0),
            drive: u32::from(switch.below().word()),
        }
    }

    // Taken in whole by each call, and ended by an `if`: what hands the monitor on copies it.
    #[inline(always)]
    fn monitor(&self) -> Option<Monitor<Echo, Rest<DriveWord>>> {
        let core = self.core.parts()?;
        let gauge = Echo::restore(self.mount, reading_of(self.fault, self.level)?)?;
        let rest = RestTime::new(self.rest).ok()?;
        let opening = flag_of(self.opened)?.then_some(self.opening);
        if opening.unwrap_or(0) != self.opening {
            return None;
        }
        let below = DriveWord::new(u16::try_from(self.drive).ok()?);
        let switch = Rest::restore(below, rest, self.last_tick, opening);
        let monitor = Monitor::restore(gauge, switch, core.plate, core.state, core.panel);
        if !is_echo_possible(&monitor) {
            return None;
        }
        Some(monitor)
    }

    fn laws() {}
}

// A dark monitor, its contact open.
pub(crate) fn set_up(
    numbers: &mut EchoNumbers,
    plate: &PlateNumbers,
    mount: f32,
    rest: u64,
) -> Result<(), CallError>
    ensures { EchoSetUp plate.now mount rest numbers.old (call_number result) numbers.new }
{
    let plate = Plate::new(*plate)?;
    let gauge = Echo::new(mount)?;
    let rest = RestTime::new(rest)?;
    let switch = Rest::new(DriveWord::new(OPEN_WORD), rest);
    let monitor = Monitor::set_up(gauge, switch, plate);
    *numbers = EchoNumbers::of(&monitor);
    Ok(())
}

// Taken in whole by each call, as `monitor` is.
#[inline(always)]
fn is_echo_possible(monitor: &Monitor<Echo, Rest<DriveWord>>) -> bool
    ensures { result ≡ echo_possible monitor.now }
{
    let state = monitor.state();
    is_possible(monitor)
        && gauge_is_possible(monitor.gauge().reading(), state.mode)
        && switch_is_possible(monitor.switch(), &state)
}

// The contact is closed only if the state drives the pump.
fn switch_is_possible(switch: &Rest<DriveWord>, state: &State) -> bool
    ensures { result ≡ switch_possible switch.now state.now }
{
    rest_is_possible(switch, state.time) && (switch.below().word() != CLOSED_WORD || state.drives())
}

// Only a dark monitor's gauge took nothing yet.
fn gauge_is_possible(reading: Reading, mode: Mode) -> bool
    ensures { result ≡ gauge_possible reading mode }
{
    is_echo_reading(reading) && (reading != fresh_fault(Cause::Nothing) || mode == Mode::Dark)
}

fn rest_is_possible(switch: &Rest<DriveWord>, time: u64) -> bool
    ensures { result ≡ rest_possible switch.now time }
{
    switch.last_tick() == time
        && opening_is_possible(switch.opening_tick(), switch.last_tick())
        && [CLOSED_WORD, OPEN_WORD].contains(&switch.below().word())
}

fn opening_is_possible(opening: Option<u64>, last: u64) -> bool
    ensures { result ≡ opening_possible opening last }
{
    opening.is_none_or(|opening| opening <= last)
}

// An echo gauge has three kinds of fault, and none from a gauge below.
fn is_echo_reading(reading: Reading) -> bool
    ensures { result ≡ echo_read reading }
{
    reading
        .err()
        .is_none_or(|fault| is_echo_cause(fault.cause) && fault.height == 0)
}

fn is_echo_cause(cause: Cause) -> bool
    ensures { result ≡ cause_read cause }
{
    matches!(cause, Cause::Lost | Cause::Reach | Cause::Nothing)
}

// The cause of a fault, or 0 for a level.
fn fault_number(reading: Reading) -> u32
    ensures { result ≡ fault_number reading }
{
    match reading {
        Ok(_) => 0,
        Err(fault) => u32::from(fault.cause.number()),
    }
}

// The echo gauge's reading with these numbers, or none if there is none. Written out, as C's other numbers are.
fn reading_of(fault: u32, level: u32) -> Option<Reading>
    ensures { StandsFor reading_numbers echo_read (fault, level) result }
{
    match (fault, level) {
        (0, level) => Some(Ok(level)),
        (2, 0) => Some(fresh_fault(Cause::Lost)),
        (3, 0) => Some(fresh_fault(Cause::Reach)),
        (5, 0) => Some(fresh_fault(Cause::Nothing)),
        _ => None,
    }
}
