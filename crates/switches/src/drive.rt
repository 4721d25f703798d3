ghost use Rattle.std.specs.Prelude.{◌≡◌};
ghost use Rattle.switches.specs.Drive.{drive, word_at};
ghost use Rattle.std.proofs.Common.{rules};

use crate::held::Held;
use crate::switch::Switch;

// The one word that closes the contact, and the word that an opening writes.
pub const CLOSED_WORD: u16 = 0x00FF;

pub const OPEN_WORD: u16 = 0xFF00;

// A contact worked through a drive's control word. Every word but one means open. It is always free, and
// ticks mean nothing to it.
#[derive(Clone, Copy)]
pub struct DriveWord {
    word: u16,
}

impl DriveWord {
    // A drive with its word as it is found.
    pub fn new(word: u16) -> DriveWord
        ensures { result ≡ word_at word }
    {
        DriveWord { word }
    }

    // The word to send to the drive.
    pub fn word(&self) -> u16
        ensures { result ≡ self.now.word }
    {
        self.word
    }
}

impl Switch for DriveWord {
    ghost model = { drive };

    ghost tick_never_closes = { Prim.search rules };

    ghost free_closes = { Prim.search rules };

    ghost open_opens = { Prim.search rules };

    ghost closed_is_free = { Prim.search rules };

    fn tick(&mut self, time: u64) {
        let _ = time;
    }

    fn close(&mut self) -> Result<(), Held> {
        self.word = CLOSED_WORD;
        Ok(())
    }

    fn open(&mut self) {
        self.word = OPEN_WORD;
    }

    fn is_closed(&self) -> bool {
        self.word == CLOSED_WORD
    }

    fn is_free(&self) -> bool {
        true
    }
}
