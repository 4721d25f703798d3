// The level monitor: one gauge, one pump switch and one plate. Generic over every gauge and every switch.
// `Monitor::set_up` carries the three promises over every run of calls.
#![tactic(auto)]

mod feed;
mod laws;
mod monitor;
mod parts;
mod readout;
mod set_up;
mod step;

pub use laws::{edges_hold, promises_are_not_empty, words_mean_what_they_say};
pub use monitor::Monitor;
