ghost use Rattle.std.specs.Prelude.{◌≡◌};
ghost use Rattle.sukepina.specs.Calls.{call_number};
ghost use Rattle.sukepina.specs.declared.call_error.CallError.TheVariants.{Refused};

use base::Refusal;
use records::RecordFault;

// The number of a call on numbers that no monitor can have.
const NO_MONITOR: u32 = 7;

// Why a call did nothing.
#[derive(Clone, Copy)]
pub(crate) enum CallError {
    // the monitor's own refusal
    Refused(Refusal),
    // no monitor can have the numbers
    NoMonitor,
}

impl From<Refusal> for CallError {
    ghost from_gives = { λ why error. error ≡ Refused why };

    fn from(why: Refusal) -> CallError {
        CallError::Refused(why)
    }
}

impl From<RecordFault> for CallError {
    ghost from_gives = { λ fault error. error ≡ Refused fault.refusal };

    fn from(fault: RecordFault) -> CallError {
        CallError::Refused(fault.refusal)
    }
}

// What C is told: 0, or why not.
pub(crate) fn number(done: Result<(), CallError>) -> u32
    ensures { result ≡ call_number done }
{
    match done {
        Ok(()) => 0,
        Err(CallError::Refused(why)) => u32::from(why.number()),
        Err(CallError::NoMonitor) => NO_MONITOR,
    }
}
