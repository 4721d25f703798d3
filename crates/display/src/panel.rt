ghost use Rattle.std.specs.Prelude.{◌≡◌};
ghost use Rattle.display.specs.Panel.{dark_panel, next_panel};

use crate::figure::{BLANK, figure};
use crate::warnings::Warnings;
use control::{Mode, Plate, State};
use gauges::Reading;

// The display as the last accepted step left it.
#[derive(Clone, Copy, PartialEq, Eq, Debug)]
pub struct Panel {
    pub warnings: Warnings,
    pub figure: [u8; 4],
}

impl Panel {
    // The display in the dark.
    pub fn dark() -> Panel
        ensures { result ≡ dark_panel }
    {
        Panel {
            warnings: Warnings::off(),
            figure: *BLANK,
        }
    }

    // The display after a step that led from mode `before` to the state `after`.
    // Plate and reading are not joined in a struct: the figure goes by the reading alone.
    pub fn next(&self, plate: &Plate, before: Mode, after: &State, reading: Reading) -> Panel
        ensures { result ≡ next_panel plate.now self.now before after.now reading }
    {
        Panel {
            warnings: self.warnings.next(plate, before, after, reading),
            figure: figure(after, reading),
        }
    }
}
