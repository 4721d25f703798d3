ghost use Rattle.std.specs.Prelude.{◌≡◌, ◌≤◌, true, length, is_ok};
ghost use Rattle.display.specs.Line.{Wrote};
ghost use Rattle.monitor.specs.Calls.{line_of};

use crate::monitor::Monitor;
use base::Refusal;
use display::write_line;
use gauges::Gauge;
use switches::Switch;

impl<G: Gauge, S: Switch> Monitor<G, S> {
    // Writes the monitor's line at the front of `out` and answers its length. `LINE_LEN` bytes always suffice.
    // The text has no type of its own: the library has no heap, and the C interface passes a buffer.
    pub fn readout(&self, out: &mut [u8]) -> Result<usize, Refusal>
        ensures wrote { Wrote (line_of S.Switch.model self.now) out.old result out.new }
        ensures suffices { 64 ≤ length out.old → is_ok result ≡ true }
    {
        write_line(&self.state, &self.panel, self.switch.is_closed(), out)
    }
}
