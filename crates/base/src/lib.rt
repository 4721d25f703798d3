// What every other crate shares: the limit of time, and the refusals with their numbers.
#![tactic(auto)]

mod limits;
mod refusal;

pub use limits::TIME_LIMIT;
pub use refusal::Refusal;
