// Pump switches: what a switch promises (`Switch`), and the switches themselves.
// This crate needs only `base`, so it can be shipped without gauges and monitor.
#![tactic(auto)]

mod direct;
mod drive;
mod held;
mod rest;
mod rest_time;
mod switch;

pub use direct::DirectContact;
pub use drive::{CLOSED_WORD, DriveWord, OPEN_WORD};
pub use held::Held;
pub use rest::Rest;
pub use rest_time::RestTime;
pub use switch::Switch;
