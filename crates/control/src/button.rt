ghost use Rattle.std.specs.Prelude.{◌≡◌, ◌-◌};
ghost use Rattle.control.specs.Button.{pressed, released};

// A button at the last step: whether it was down, and since when. An up button counts from the step itself,
// so that its time is 0.
// Not an Option: an up button has its time too, which `held` answers for it and C passes in.
#[derive(Clone, Copy, PartialEq, Eq, Debug)]
pub struct Button {
    pub down: bool,
    pub since: u64,
}

impl Button {
    // An up button at that time.
    pub fn up(time: u64) -> Button
        ensures { result ≡ released time }
    {
        Button {
            down: false,
            since: time,
        }
    }

    // The button after a power-on step that finds it down or up.
    pub fn next(self, down: bool, time: u64) -> Button
        ensures { result ≡ pressed self down time }
    {
        let since = if down && self.down { self.since } else { time };
        Button { down, since }
    }

    // How long it has been down.
    pub fn held(self, time: u64) -> u64
        ensures { result ≡ time - self.since }
    {
        time.saturating_sub(self.since)
    }
}
