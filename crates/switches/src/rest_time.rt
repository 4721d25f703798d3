ghost use Rattle.std.specs.Prelude.{◌≤◌};

mod make;

// How long a pump rests, in milliseconds: a day at most.
#[derive(Clone, Copy)]
pub struct RestTime {
    millis: u64,
    ghost within: { millis ≤ 86400000 },
}
