// What the keeper sees and hears: the two windows, the alarm, the level figure, and the readout's line.
#![tactic(auto)]

mod buffer;
mod figure;
mod line;
mod panel;
mod warnings;

pub use buffer::LINE_LEN;
pub use line::{write_line, write_refusal};
pub use panel::Panel;
pub use warnings::Warnings;
