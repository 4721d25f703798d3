ghost use Rattle.std.specs.Prelude.{◌≡◌};
ghost use Rattle.gauges.specs.Pair.{paired, joined, middle, raised, new_pair};
ghost use Rattle.std.proofs.Common.{rules};

use crate::gauge::Gauge;
use crate::reading::{Cause, Fault, Reading, fresh_fault};

// Two levels further apart than this are a fault.
const WIDEST_GAP: u32 = 50_000;

// Two gauges of any kind on one well, pairs among them. The second takes the words swapped.
#[derive(Drop)]
pub struct Pair<F, S> {
    first: F,
    second: S,
}

impl<F: Gauge, S: Gauge> Pair<F, S> {
    pub fn new(first: F, second: S) -> Pair<F, S>
        ensures { result ≡ new_pair first second }
    {
        Pair { first, second }
    }
}

impl<F: Gauge, S: Gauge> Gauge for Pair<F, S> {
    ghost model = { paired F.Gauge.model S.Gauge.model };

    ghost in_range = { Prim.search rules };

    fn take(&mut self, a: u32, b: u32) {
        self.first.take(a, b);
        self.second.take(b, a);
    }

    fn reading(&self) -> Reading {
        joined(self.first.reading(), self.second.reading())
    }
}

// What two readings come to: the first's fault, else the second's, else their middle.
fn joined(first: Reading, second: Reading) -> Reading
    ensures { result ≡ joined first second }
{
    let x = first.map_err(raised)?;
    let y = second.map_err(raised)?;
    middle(x, y)
}

// Half the sum, rounded down, or a fault if the levels are too far apart.
fn middle(x: u32, y: u32) -> Reading
    ensures { result ≡ middle x y }
{
    if x.abs_diff(y) > WIDEST_GAP {
        return fresh_fault(Cause::Apart);
    }
    Ok(x.midpoint(y))
}

// A fault passed on, one higher, 255 at most.
fn raised(fault: Fault) -> Fault
    ensures { result ≡ raised fault }
{
    Fault {
        cause: fault.cause,
        height: fault.height.saturating_add(1),
    }
}
