// Step records: the 19 bytes that carry one step, their reader and their writer.
#![tactic(auto)]

mod fault;
mod read;
mod step;
#[cfg(test)]
mod tests;
mod write;

pub use fault::RecordFault;
pub use read::read_step;
pub use step::{RECORD_LEN, Step};
pub use write::write_step;
