ghost use Rattle.std.specs.Prelude.{◌≡◌};
ghost use Rattle.gauges.specs.Cell.{cell, nothing_taken, last_took, cell_reading};
ghost use Rattle.std.proofs.Common.{rules};

use crate::gauge::Gauge;
use crate::reading::{Cause, Reading, fresh_fault};

// The level at word 0, the span of words 0 to 255 in units, and the last word of the scale.
const OFFSET: u32 = 1_273_372;

const SPAN: u32 = 1_453_242;

const FULL_SCALE: u32 = 255;

// A pressure cell with an 8-bit scale. It keeps the last word A; its reading follows from that.
#[derive(Clone, Copy)]
pub struct Cell {
    word: Option<u32>,
}

impl Cell {
    // A cell that has taken nothing yet.
    pub fn new() -> Cell
        ensures { result ≡ nothing_taken }
    {
        Cell { word: None }
    }

    // A cell as it was after that word, or before any.
    pub fn restore(word: Option<u32>) -> Cell
        ensures { result ≡ last_took word }
    {
        Cell { word }
    }

    // The last word A, if it took one.
    pub fn word(&self) -> Option<u32>
        ensures { result ≡ self.now.word }
    {
        self.word
    }
}

impl Gauge for Cell {
    ghost model = { cell };

    ghost in_range = { Prim.search rules };

    fn take(&mut self, a: u32, b: u32) {
        let _ = b;
        self.word = Some(a);
    }

    fn reading(&self) -> Reading {
        let word = self.word.ok_or(Cause::Nothing)?;
        reading_of(word)
    }
}

// What the cell reads at word `a`.
fn reading_of(a: u32) -> Reading
    ensures { result ≡ cell_reading a }
{
    if a > FULL_SCALE {
        return fresh_fault(Cause::Scale);
    }
    Ok(OFFSET + SPAN * a / FULL_SCALE)
}
