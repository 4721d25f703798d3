ghost use Rattle.std.specs.Prelude.{◌≡◌};
ghost use Rattle.control.specs.Transition.{bad_reading};
ghost use Rattle.control.specs.Plate.{past_mark, high, low, out_of_limits, settled};

use crate::plate::Plate;
use gauges::Reading;

impl Plate {
    // Below the low mark or above the high mark.
    pub fn is_past_mark(&self, reading: Reading) -> bool
        ensures { result ≡ past_mark self.now reading }
    {
        let n = self.numbers;
        reading.is_ok_and(|level| level < n.low_mark || level > n.high_mark)
    }

    // A reading that the monitor cannot go by: a fault, or a level past a mark.
    pub fn is_bad(&self, reading: Reading) -> bool
        ensures { result ≡ bad_reading self.now reading }
    {
        reading.is_err() || self.is_past_mark(reading)
    }

    // At or above the high limit.
    pub fn is_high(&self, reading: Reading) -> bool
        ensures { result ≡ high self.now reading }
    {
        reading.is_ok_and(|level| level >= self.numbers.high_limit)
    }

    // At or below the low limit.
    pub fn is_low(&self, reading: Reading) -> bool
        ensures { result ≡ low self.now reading }
    {
        reading.is_ok_and(|level| level <= self.numbers.low_limit)
    }

    pub fn is_out_of_limits(&self, reading: Reading) -> bool
        ensures { result ≡ out_of_limits self.now reading }
    {
        self.is_low(reading) || self.is_high(reading)
    }

    // Within the limits by the hysteresis.
    pub fn is_settled(&self, reading: Reading) -> bool
        ensures { result ≡ settled self.now reading }
    {
        let n = self.numbers;
        reading.is_ok_and(|level| level >= n.low_limit + n.hysteresis
            && level <= n.high_limit - n.hysteresis)
    }
}
