// A gauge and a pump starter by another maker, written against the public contracts only. What this crate
// shows: an own gauge, an own switch, and the monitor's promises for every run over them.
#![tactic(auto)]

mod dry;
mod float_arm;
mod run;
mod soft_starter;

pub use dry::run_dry;
pub use float_arm::FloatArm;
pub use run::{four_calls, replay};
pub use soft_starter::SoftStarter;
