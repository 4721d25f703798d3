// The monitor for C and Rust: two configurations behind plain numbers in the caller's memory.
#![tactic(auto)]

mod call_error;
mod calls;
mod cell;
mod cell_calls;
mod core_numbers;
mod echo;
mod echo_calls;
mod monitor_numbers;
mod numbers;
mod possible;

pub use numbers::{CellNumbers, CoreNumbers, EchoNumbers, StepNumbers};
