ghost use Rattle.std.specs.Prelude.{Some, codes};

use std::error::Error;
use std::fmt;

// Why a closing did not close: the switch was not free, and nothing changed.
#[derive(Clone, Copy, PartialEq, Eq, Debug)]
pub struct Held;

impl fmt::Display for Held {
    ghost output = { λ _. Some (codes "the switch is not free") };

    fn fmt<W: fmt::Write>(&self, f: &mut fmt::Formatter<W>) -> fmt::Result {
        f.write_str("the switch is not free")
    }
}

impl Error for Held {}
