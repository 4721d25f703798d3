// The calls of the boundary, on any monitor that is kept as numbers. Each reads the monitor by `let .. else`, since
// `ok_or` and `?` would copy it once more.
ghost use Rattle.std.specs.Prelude.{◌≡◌};
ghost use Rattle.monitor.specs.Calls.{after_feed, line_of};
ghost use Rattle.sukepina.specs.Boundary.{Call};
ghost use Rattle.sukepina.specs.Calls.{after_batch, answered, batch, call_number, fed, no_monitor, shown, told, with_step};

use crate::call_error::CallError;
use crate::monitor_numbers::MonitorNumbers;
use crate::numbers::StepNumbers;
use base::Refusal;
use display::LINE_LEN;
use records::Step;
use report::write_lines;

// One step.
pub(crate) fn step<N: MonitorNumbers>(numbers: &mut N, facts: &StepNumbers) -> Result<(), CallError>
    ensures { Call N.numbers N.possible no_monitor (λ _. answered (told facts.now)) (with_step N.G.Gauge.model N.S.Switch.model (told facts.now)) numbers.old (call_number result) numbers.new }
{
    N::laws();
    let Some(mut monitor) = numbers.monitor() else {
        return Err(CallError::NoMonitor);
    };
    let step = Step::from_flags(facts.facts, facts.time, facts.a, facts.b)?;
    monitor.step(step)?;
    *numbers = N::of(&monitor);
    Ok(())
}

// Steps with the record at the place, and moves the place on.
pub(crate) fn feed<N: MonitorNumbers>(
    numbers: &mut N,
    bytes: &[u8],
    place: &mut usize,
) -> Result<(), CallError>
    ensures { Call N.numbers N.possible (no_monitor, place.old) (λ _. fed bytes.now place.old) (λ m. after_feed N.G.Gauge.model N.S.Switch.model m bytes.now place.old) numbers.old (call_number result, place.new) numbers.new }
{
    N::laws();
    let Some(mut monitor) = numbers.monitor() else {
        return Err(CallError::NoMonitor);
    };
    *place = monitor.feed(bytes, *place)?;
    *numbers = N::of(&monitor);
    Ok(())
}

// Writes the line and its length.
pub(crate) fn readout<N: MonitorNumbers>(
    numbers: &N,
    out: &mut [u8],
    len: &mut usize,
) -> Result<(), CallError>
    ensures { Call N.numbers N.possible (no_monitor, out.old, len.old) (λ m. shown (line_of N.S.Switch.model m) out.old len.old) (λ m. m) numbers.now (call_number result, out.new, len.new) numbers.now }
{
    N::laws();
    let Some(monitor) = numbers.monitor() else {
        return Err(CallError::NoMonitor);
    };
    *len = monitor.readout(out)?;
    Ok(())
}

// From record bytes to report lines: as many as there is room for.
pub(crate) fn lines<N: MonitorNumbers>(
    numbers: &mut N,
    bytes: &[u8],
    place: &mut usize,
    out: &mut [u8],
    written: &mut usize,
) -> Result<(), CallError>
    ensures { Call N.numbers N.possible (no_monitor, place.old, out.old, written.old) (batch N.G.Gauge.model N.S.Switch.model bytes.now place.old out.old written.old) (after_batch N.G.Gauge.model N.S.Switch.model bytes.now place.old out.old) numbers.old (call_number result, place.new, out.new, written.new) numbers.new }
{
    N::laws();
    let Some(mut monitor) = numbers.monitor() else {
        return Err(CallError::NoMonitor);
    };
    if *place < bytes.len() && out.len() < LINE_LEN {
        return Err(Refusal::Output.into());
    }
    let done = write_lines(&mut monitor, bytes, *place, out);
    *numbers = N::of(&monitor);
    *place = done.place;
    *written = done.written;
    Ok(())
}
