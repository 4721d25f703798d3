use base::*;
use records::*;
use std::process::Abort;

// The largest output that is lent, and what it holds before a call.
pub(crate) const ROOM: usize = 4096;

pub(crate) const FILLED: [u8; ROOM] = [0xA5; ROOM];

// A call that writes gave the answer that was expected. It wrote so much of the text and nothing behind it;
// if it refused, nothing at all.
pub(crate) fn check_written(
    rt: &impl Abort,
    answer: Result<usize, Refusal>,
    expected: Result<usize, Refusal>,
    out: [u8; ROOM],
    text: &[u8],
) {
    assert_eq!(rt; answer, expected);
    let len = expected.unwrap_or(0);
    assert!(rt; len <= ROOM && len <= text.len());
    let mut left = FILLED;
    left[..len].copy_from_slice(&text[..len]);
    assert_eq!(rt; out, left);
}

// What a call answers that writes a text of this length.
pub(crate) fn fitting(len: usize, room: usize) -> Result<usize, Refusal> {
    if room < len {
        Err(Refusal::Output)
    } else {
        Ok(len)
    }
}

// A step by its flag byte, time and word A.
pub(crate) fn step(flags: u8, time: u64, a: u32) -> Step {
    Step {
        time,
        a,
        b: u32::MAX,
        power: flags % 2 == 1,
        reset: flags / 2 % 2 == 1,
        self_test: flags / 4 % 2 == 1,
        memory_failed: flags / 8 % 2 == 1,
        clock_failed: flags / 16 % 2 == 1,
    }
}
