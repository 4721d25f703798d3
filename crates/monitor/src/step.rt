ghost use Rattle.std.specs.Prelude.{◌≡◌, ◌&&◌};
ghost use Rattle.control.specs.State.{drives};
ghost use Rattle.monitor.specs.Calls.{accepted, step_answer, after_step, worked};

use crate::monitor::Monitor;
use base::{Refusal, TIME_LIMIT};
use control::State;
use gauges::Gauge;
use records::Step;
use switches::Switch;

impl<G: Gauge, S: Switch> Monitor<G, S> {
    // One step. A time above the limit is refused, and then nothing changes.
    pub fn step(&mut self, step: Step) -> Result<(), Refusal>
        ensures value { result ≡ step_answer step }
        ensures after { self.new ≡ after_step G.Gauge.model S.Switch.model self.old step }
    {
        if step.time > TIME_LIMIT {
            return Err(Refusal::Time);
        }
        self.accept(step);
        Ok(())
    }

    // A step that is not refused.
    pub(crate) fn accept(&mut self, step: Step)
        ensures { self.new ≡ accepted G.Gauge.model S.Switch.model self.old step }
    {
        if step.power {
            self.gauge.take(step.a, step.b);
        }
        let reading = self.gauge.reading();
        let state = self.state.next(&self.plate, step, reading);
        self.panel = self
            .panel
            .next(&self.plate, self.state.mode, &state, reading);
        self.state = state;
        self.switch.tick(step.time);
        work(&mut self.switch, step.power, &state);
    }
}

// Closes the switch, held or not, where power is on and the state lets the pump run, and opens it otherwise.
fn work<S: Switch>(switch: &mut S, power: bool, state: &State)
    ensures { switch.new ≡ worked S.Switch.model switch.old (power && drives state.now) }
{
    if power && state.drives() {
        let _ = switch.close();
    } else {
        switch.open();
    }
}
