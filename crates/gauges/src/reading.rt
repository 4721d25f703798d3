ghost use Rattle.std.specs.Prelude.{◌≡◌, Some};
ghost use Rattle.gauges.specs.Causes.{cause_number, cause_text, fault_text};
ghost use Rattle.gauges.specs.Model.{arisen, fresh};

use std::error::Error;
use std::fmt;

// What a gauge reads: a level in units of 0.00001 cm, or a fault.
pub type Reading = Result<u32, Fault>;

// The height counts the gauges through which a fault was passed on: 0 where it arose, 255 at most.
#[derive(Clone, Copy, PartialEq, Eq, Debug)]
pub struct Fault {
    pub cause: Cause,
    pub height: u8,
}

#[derive(Clone, Copy, PartialEq, Eq, Debug)]
pub enum Cause {
    // a word beyond the cell's scale
    Scale = 1,
    // the echo is lost
    Lost = 2,
    // the gap is out of reach
    Reach = 3,
    // two gauges read too far apart
    Apart = 4,
    // nothing taken yet
    Nothing = 5,
}

impl Cause {
    pub fn number(self) -> u8
        ensures { result ≡ cause_number self }
    {
        self as u8
    }
}

impl fmt::Display for Cause {
    ghost output = { λ cause. Some (cause_text cause) };

    fn fmt<W: fmt::Write>(&self, f: &mut fmt::Formatter<W>) -> fmt::Result {
        f.write_str(match self {
            Cause::Scale => "a word beyond the scale",
            Cause::Lost => "the echo is lost",
            Cause::Reach => "the gap is out of reach",
            Cause::Apart => "two gauges read too far apart",
            Cause::Nothing => "nothing taken yet",
        })
    }
}

impl fmt::Display for Fault {
    ghost output = { λ fault. Some (fault_text fault) };

    fn fmt<W: fmt::Write>(&self, f: &mut fmt::Formatter<W>) -> fmt::Result {
        write!(f, "{} (height {})", self.cause, self.height)
    }
}

impl Error for Fault {}

// A cause makes a fault where it arises, at height 0.
impl From<Cause> for Fault {
    ghost from_gives = { λ cause fault. fault ≡ arisen cause };

    fn from(cause: Cause) -> Fault {
        Fault { cause, height: 0 }
    }
}

// A fault where it arises, as a reading.
pub fn fresh_fault(cause: Cause) -> Reading
    ensures { result ≡ fresh cause }
{
    Err(Fault::from(cause))
}
