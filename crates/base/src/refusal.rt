ghost use Rattle.std.specs.Prelude.{◌≡◌, Some};
ghost use Rattle.base.specs.Refusals.{refusal_number, refusal_text};

use std::error::Error;
use std::fmt;

// Why a call was refused. Where several causes hold, the earliest one here decides.
#[derive(Clone, Copy, PartialEq, Eq, Debug)]
pub enum Refusal {
    // fewer than 19 bytes from the place on
    Short = 1,
    // the record's mark is not 57 4C
    Mark = 2,
    // flag bit 5, 6 or 7 is set
    Flags = 3,
    // the time is above its limit
    Time = 4,
    // the output is too short for what is written
    Output = 5,
    // a setting or a plate is outside its range
    Setting = 6,
}

impl Refusal {
    pub fn number(self) -> u8
        ensures { result ≡ refusal_number self }
    {
        self as u8
    }
}

impl fmt::Display for Refusal {
    ghost output = { λ refusal. Some (refusal_text refusal) };

    fn fmt<W: fmt::Write>(&self, f: &mut fmt::Formatter<W>) -> fmt::Result {
        f.write_str(match self {
            Refusal::Short => "fewer than 19 bytes from the place on",
            Refusal::Mark => "the mark is not 57 4C",
            Refusal::Flags => "a flag above bit 4 is set",
            Refusal::Time => "the time is above its limit",
            Refusal::Output => "the output is too short",
            Refusal::Setting => "a setting is out of range",
        })
    }
}

impl Error for Refusal {}
