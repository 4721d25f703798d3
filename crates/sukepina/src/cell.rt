ghost use Rattle.std.specs.Prelude.{◌≡◌};
ghost use Rattle.sukepina.specs.Calls.{call_number};
ghost use Rattle.sukepina.specs.Cell.{CellMonitor, CellSetUp, cell_numbers, cell_possible};

use crate::call_error::CallError;
use crate::core_numbers::{Core, flag_of};
use crate::monitor_numbers::MonitorNumbers;
use crate::numbers::{CellNumbers, CoreNumbers};
use crate::possible::is_possible;
use control::{Mode, Plate, PlateNumbers};
use gauges::{Cell, Gauge};
use monitor::Monitor;
use switches::{DirectContact, Switch};

impl MonitorNumbers for CellNumbers {
    type G = Cell;

    type S = DirectContact;

    ghost numbers = { cell_numbers };

    ghost possible = { cell_possible };

    fn of(monitor: &Monitor<Cell, DirectContact>) -> CellNumbers {
        let word = monitor.gauge().word();
        CellNumbers {
            core: CoreNumbers::new(&Core::of(monitor)),
            taken: u32::from(word.is_some()),
            word: word.unwrap_or(0),
            closed: u32::from(monitor.switch().is_closed()),
        }
    }

    // Taken in whole by each call, and ended by an `if`: what hands the monitor on copies it.
    #[inline(always)]
    fn monitor(&self) -> Option<Monitor<Cell, DirectContact>> {
        let core = self.core.parts()?;
        let word = flag_of(self.taken)?.then_some(self.word);
        if word.unwrap_or(0) != self.word {
            return None;
        }
        let gauge = Cell::restore(word);
        let switch = DirectContact::new(flag_of(self.closed)?);
        let monitor = Monitor::restore(gauge, switch, core.plate, core.state, core.panel);
        if !is_cell_possible(&monitor) {
            return None;
        }
        Some(monitor)
    }

    fn laws() {}
}

// A dark monitor, its contact open.
pub(crate) fn set_up(numbers: &mut CellNumbers, plate: &PlateNumbers) -> Result<(), CallError>
    ensures { CellSetUp plate.now numbers.old (call_number result) numbers.new }
{
    let plate = Plate::new(*plate)?;
    let monitor = Monitor::set_up(Cell::new(), DirectContact::new(false), plate);
    *numbers = CellNumbers::of(&monitor);
    Ok(())
}

// Taken in whole by each call, as `monitor` is.
#[inline(always)]
fn is_cell_possible(monitor: &Monitor<Cell, DirectContact>) -> bool
    ensures { result ≡ cell_possible monitor.now }
{
    let state = monitor.state();
    is_possible(monitor)
        && (monitor.gauge().word().is_some() || state.mode == Mode::Dark)
        && monitor.switch().is_closed() == state.drives()
}
