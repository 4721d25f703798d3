// The monitor's decisions, apart from gauge, switch and display: the plate, the modes, the buttons,
// and the state that one accepted step leads to.
#![tactic(auto)]

mod button;
mod mode;
mod mode_table;
mod plate;
mod plate_numbers;
mod state;
mod transition;

pub use button::Button;
pub use mode::{FailureMode, Mode, Signal, Watchdog};
pub use mode_table::Conditions;
pub use plate::Plate;
pub use plate_numbers::PlateNumbers;
pub use state::State;
