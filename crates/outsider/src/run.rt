ghost use Rattle.std.specs.Prelude.{[], ◌∷◌};
ghost use Rattle.control.specs.Plate.{standard};
ghost use Rattle.monitor.specs.History.{step, feed, readout};
ghost use Rattle.outsider.specs.FloatArm.{float_arm, new_arm};
ghost use Rattle.outsider.specs.Runs.{Kept, Run, told};
ghost use Rattle.outsider.specs.SoftStarter.{soft_starter};

use crate::float_arm::FloatArm;
use crate::soft_starter::SoftStarter;
use control::Plate;
use gauges::Gauge;
use monitor::Monitor;
use records::Step;
use switches::Switch;

// A step, a record, a readout and a step, with answers left aside.
pub fn four_calls(
    first: Step,
    bytes: &[u8],
    place: usize,
    out: &mut [u8],
    last: Step,
) -> Monitor<FloatArm, SoftStarter>
    ensures { Kept float_arm soft_starter standard new_arm (step last ∷ readout out.old ∷ feed bytes.now place ∷ step first ∷ []) result }
{
    let mut monitor = Monitor::set_up(FloatArm::new(), SoftStarter::new(), Plate::standard());
    let _ = monitor.step(first);
    let _ = monitor.feed(bytes, place);
    let _ = monitor.readout(out);
    let _ = monitor.step(last);
    monitor
}

// Sets up a monitor and tells it these steps in order. A refused one changes nothing.
pub fn replay<G: Gauge, S: Switch>(
    gauge: G,
    switch: S,
    plate: Plate,
    steps: &[Step],
) -> Monitor<G, S>
    ensures run { Run G.Gauge.model S.Switch.model plate gauge (told steps.now) result }
    ensures kept { Kept G.Gauge.model S.Switch.model plate gauge (told steps.now) result }
{
    let mut monitor = Monitor::set_up(gauge, switch, plate);
    for step in steps {
        let _ = monitor.step(*step);
    }
    monitor
}
