// What the suite programs share: their input, numbers in it, and readings and yes or no in their outputs.
#![tactic(auto)]

ghost use Rattle.std.specs.Prelude.{◌≡◌, ◌++◌, string_bytes, IfOk, IfSome, OnOk};
ghost use Rattle.suite_input.specs.Readings.{reading_text};
ghost use Rattle.suite_input.specs.Words.{bit, word_at};

use gauges::Reading;
use std::alloc::{AllocError, Global};
use std::fmt::Write;
use std::io::{self, Read};

#[cfg(test)]
mod tests;

// All that a reader has left.
pub fn read_all<R: Read + Drop>(heap: Global, mut reader: R) -> io::Result<Vec<u8>>
    ensures { IfOk result (λ v. IfSome (R.remaining reader) (λ bytes. v.items ≡ bytes)) }
{
    let mut bytes = Vec::new(heap);
    reader.read_to_end(&mut bytes)?;
    Ok(bytes)
}

// The 32-bit number at `at`, high byte first; 0 past the end.
pub fn word(bytes: &[u8], at: usize) -> u32
    ensures { result ≡ word_at bytes.now at }
{
    let Some(number) = bytes.get(at..).and_then(|rest| rest.first_chunk::<4>()) else {
        return 0;
    };
    u32::from_be_bytes(*number)
}

// 1 if true.
pub fn digit(on: bool) -> u8
    ensures { result ≡ bit on }
{
    u8::from(on)
}

// Adds what a gauge reads, a space before it.
pub fn put_reading(reading: Reading, text: &mut String) -> Result<(), AllocError>
    ensures { OnOk result (string_bytes text.new ≡ string_bytes text.old ++ reading_text reading) }
{
    match reading {
        Ok(level) => write!(text, " level {level}"),
        Err(fault) => {
            let cause = fault.cause.number();
            let height = fault.height;
            write!(text, " fault {cause} height {height}")
        }
    }
}
