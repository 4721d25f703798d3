// Tables of hostile calls on the library crates: the smallest and largest numbers, both sides of every edge,
// buffers of every awkward size. This crate has nothing but tests.
#![tactic(auto)]

#[cfg(test)]
mod common;
#[cfg(test)]
mod control_calls;
#[cfg(test)]
mod gauge_calls;
#[cfg(test)]
mod monitor_calls;
#[cfg(test)]
mod record_calls;
#[cfg(test)]
mod switch_calls;
#[cfg(test)]
mod text_calls;
