// Gauges: what a gauge promises (`Gauge`), what it reads (`Reading`), and the gauges themselves.
#![tactic(auto)]

mod cell;
mod echo;
mod gauge;
mod pair;
mod reading;
#[cfg(test)]
mod tests;

pub use cell::Cell;
pub use echo::Echo;
pub use gauge::Gauge;
pub use pair::Pair;
pub use reading::{Cause, Fault, Reading, fresh_fault};
