ghost use Rattle.std.specs.Prelude.{◌≡◌, Some};
ghost use Rattle.control.specs.Names.{mode_name, failure_name};

use std::fmt;

// The operating mode.
#[derive(Clone, Copy, PartialEq, Eq, Debug)]
pub enum Mode {
    Dark,
    Standby,
    Operating,
    Shutdown,
    Test,
}

// The failure mode. It only worsens while power stays on.
#[derive(Clone, Copy, PartialEq, Eq, PartialOrd, Ord, Debug)]
pub enum FailureMode {
    Allok,
    Badlevdev,
    Hardfail,
}

// What the monitor asks of the pump.
#[derive(Clone, Copy, PartialEq, Eq, Debug)]
pub enum Signal {
    Shutdown,
    Operate,
}

// Shut by a late step, until the next start.
#[derive(Clone, Copy, PartialEq, Eq, Debug)]
pub enum Watchdog {
    Shut,
    Operate,
}

impl Mode {
    // Its word in the readout.
    pub fn name(self) -> &'static str
        ensures { result.now ≡ mode_name self }
    {
        match self {
            Mode::Dark => "dark",
            Mode::Standby => "standby",
            Mode::Operating => "operating",
            Mode::Shutdown => "shutdown",
            Mode::Test => "test",
        }
    }
}

impl fmt::Display for Mode {
    ghost output = { λ mode. Some (mode_name mode) };

    fn fmt<W: fmt::Write>(&self, f: &mut fmt::Formatter<W>) -> fmt::Result {
        let mode = self.name();
        f.write_str(mode)
    }
}

impl FailureMode {
    // Its word in the readout.
    pub fn name(self) -> &'static str
        ensures { result.now ≡ failure_name self }
    {
        match self {
            FailureMode::Allok => "allok",
            FailureMode::Badlevdev => "badlevdev",
            FailureMode::Hardfail => "hardfail",
        }
    }
}

impl fmt::Display for FailureMode {
    ghost output = { λ failure. Some (failure_name failure) };

    fn fmt<W: fmt::Write>(&self, f: &mut fmt::Formatter<W>) -> fmt::Result {
        let failure = self.name();
        f.write_str(failure)
    }
}
