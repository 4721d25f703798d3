// The exports of the monitor with a pressure cell and a direct contact.
// C has no `Result`: each answers 0, or the number of its refusal.
ghost use Rattle.std.specs.Prelude.{◌≡◌};
ghost use Rattle.gauges.specs.Cell.{cell};
ghost use Rattle.monitor.specs.Calls.{after_feed, line_of};
ghost use Rattle.switches.specs.Direct.{direct};
ghost use Rattle.sukepina.specs.Boundary.{Call};
ghost use Rattle.sukepina.specs.Calls.{after_batch, answered, batch, fed, no_monitor, shown, told, with_step};
ghost use Rattle.sukepina.specs.Cell.{CellMonitor, CellSetUp, cell_numbers, cell_possible};

use crate::call_error::number;
use crate::calls::{feed, lines, readout, step};
use crate::cell::set_up;
use crate::numbers::{CellNumbers, StepNumbers};
use control::PlateNumbers;

// A dark monitor, its contact open; 6 if the plate breaks a rule.
#[unsafe(no_mangle)]
pub extern "C" fn sukepina_cell_set_up_raw(numbers: &mut CellNumbers, plate: &PlateNumbers) -> u32
    ensures { CellSetUp plate.now numbers.old result numbers.new }
{
    number(set_up(numbers, plate))
}

// One step: 0, or 3, 4 or 7.
#[tactic(auto, using(crate::proofs::Serving::told_call))]
#[unsafe(no_mangle)]
pub extern "C" fn sukepina_cell_step_raw(numbers: &mut CellNumbers, facts: &StepNumbers) -> u32
    ensures { Call cell_numbers cell_possible no_monitor (λ _. answered (told facts.now)) (with_step cell direct (told facts.now)) numbers.old result numbers.new }
{
    number(step(numbers, facts))
}

// Steps with the record at `*place` and moves the place on: 0, or 1 to 4, or 7.
#[tactic(auto, using(crate::proofs::Serving::told_placed))]
#[unsafe(no_mangle)]
pub extern "C" fn sukepina_cell_feed_raw(
    numbers: &mut CellNumbers,
    bytes: &[u8],
    place: &mut usize,
) -> u32
    ensures { Call cell_numbers cell_possible (no_monitor, place.old) (λ _. fed bytes.now place.old) (λ m. after_feed cell direct m bytes.now place.old) numbers.old (result, place.new) numbers.new }
{
    number(feed(numbers, bytes, place))
}

// Writes the line at the front of `out` and its length to `*len`: 0, or 5 or 7.
#[unsafe(no_mangle)]
pub extern "C" fn sukepina_cell_readout_raw(
    numbers: &CellNumbers,
    out: &mut [u8],
    len: &mut usize,
) -> u32
    ensures { Call cell_numbers cell_possible (no_monitor, out.old, len.old) (λ m. shown (line_of direct m) out.old len.old) (λ m. m) numbers.now (result, out.new, len.new) numbers.now }
{
    number(readout(numbers, out, len))
}

// From record bytes to report lines, as many as there is room for: 0, or 5 or 7.
#[unsafe(no_mangle)]
pub extern "C" fn sukepina_cell_lines_raw(
    numbers: &mut CellNumbers,
    bytes: &[u8],
    place: &mut usize,
    out: &mut [u8],
    written: &mut usize,
) -> u32
    ensures { Call cell_numbers cell_possible (no_monitor, place.old, out.old, written.old) (batch cell direct bytes.now place.old out.old written.old) (after_batch cell direct bytes.now place.old out.old) numbers.old (result, place.new, out.new, written.new) numbers.new }
{
    number(lines(numbers, bytes, place, out, written))
}
