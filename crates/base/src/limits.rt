// The largest time of a step, in milliseconds. Each call that takes a step in compares: a type with this bound would ask it
// of the caller.
pub const TIME_LIMIT: u64 = 10_000_000_000_000;
