ghost use Rattle.std.specs.Prelude.{◌≡◌, ◌+◌, ◌≤◌, false};
ghost use Rattle.base.specs.Limits.{time_limit};
ghost use Rattle.outsider.specs.SoftStarter.{soft_starter};

use crate::float_arm::FloatArm;
use crate::run::replay;
use crate::soft_starter::SoftStarter;
use control::Plate;
use monitor::Monitor;
use records::Step;

// Whatever happened before: once the float lies at word 583 or lower over 2,700 ms, the contact is open.
pub fn run_dry(before: &[Step], first: Step, last: Step) -> Monitor<FloatArm, SoftStarter>
    ensures { first.a ≤ 583 → last.a ≤ 583 → first.time + 2700 ≤ last.time → last.time ≤ time_limit → soft_starter.contact result.switch ≡ false }
{
    let mut monitor = replay(
        FloatArm::new(),
        SoftStarter::new(),
        Plate::standard(),
        before,
    );
    let _ = monitor.step(first);
    let _ = monitor.step(last);
    monitor
}
