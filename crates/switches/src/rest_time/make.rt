ghost use Rattle.std.specs.Prelude.{◌≡◌, ◌<◌, ◌≤◌, MatchResult};
ghost use Rattle.base.specs.declared.refusal.Refusal.TheVariants.{Setting};

use crate::rest_time::RestTime;
use base::Refusal;

// The longest rest: one day.
const LONGEST_REST: u64 = 86_400_000;

impl RestTime {
    // That many milliseconds, or refusal 6 if it is more than a day.
    pub fn new(millis: u64) -> Result<RestTime, Refusal>
        ensures { MatchResult result (λ t. (t.millis ≡ millis) × (millis ≤ 86400000)) (λ e. (e ≡ Setting) × (86400000 < millis)) }
    {
        if millis > LONGEST_REST {
            return Err(Refusal::Setting);
        }
        Ok(RestTime { millis })
    }

    pub fn millis(&self) -> u64
        ensures { result ≡ self.now.millis }
    {
        self.millis
    }
}
