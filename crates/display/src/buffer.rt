ghost use Rattle.std.specs.Prelude.{◌≡◌, ◌+◌, ◌*◌, ◌<◌, ◌≤◌, [], ◌++◌, length, decimal};
ghost use Rattle.display.specs.Pair.{pair};

use std::marker::Model;

// Room for every line: the longest has a time of 20 digits, two names of 9, and 26 bytes besides.
pub const LINE_LEN: usize = 64;

// The numbers from 00 to 99.
const PAIRS: [u8; 200] = *b"\
    00010203040506070809\
    10111213141516171819\
    20212223242526272829\
    30313233343536373839\
    40414243444546474849\
    50515253545556575859\
    60616263646566676869\
    70717273747576777879\
    80818283848586878889\
    90919293949596979899";

// A text of at most `LINE_LEN` bytes that grows at its front, since the last digits of a number are found first.
// It stands in `bytes` from `start` on: an array, as there is no heap.
#[derive(Drop)]
pub(crate) struct Buffer {
    bytes: [u8; LINE_LEN],
    start: usize,
}

impl Model for Buffer {
    ghost use Rattle.std.specs.Prelude.{ℕ, ◌≤◌, List, drop};

    ghost Value = { List ℕ };

    ghost view = { λ b. drop b.start b.bytes };

    ghost invariant = { λ b. b.start ≤ 64 };
}

impl Buffer {
    pub(crate) fn new() -> Buffer
        ensures { result ≡ [] }
    {
        Buffer {
            bytes: [0; LINE_LEN],
            start: LINE_LEN,
        }
    }

    pub(crate) fn as_bytes(&self) -> &[u8]
        ensures text { result.now ≡ self.now }
        ensures most { length self.now ≤ 64 }
    {
        &self.bytes[self.start..]
    }

    // Puts `piece` before what stands there.
    #[inline(always)]
    pub(crate) fn before(&mut self, piece: &[u8])
        requires { length piece.now + length self.old ≤ 64 }
        ensures { self.new ≡ piece.now ++ self.old }
    {
        let end = self.start;
        let start = end - piece.len();
        lay(&mut self.bytes[start..end], piece);
        self.start = start;
    }

    // Puts a number in decimal before what stands there: 20 digits at most.
    #[tactic(auto, using(crate::proofs::Front::two_only, crate::proofs::Front::within, std::proofs::lemmas::Fmt::decimal_digit))]
    pub(crate) fn before_number(&mut self, number: u64)
        requires { 20 + length self.old ≤ 64 }
        ensures text { self.new ≡ decimal number ++ self.old }
        ensures most { length self.new ≤ 20 + length self.old }
    {
        let mut left = number;
        // Over the digits, two at a time: where the library writes a number, the writing may fail.
        while left >= 100 {
            self.before(&two_digits(left % 100));
            left /= 100;
        }
        if left >= 10 {
            self.before(&two_digits(left));
        } else {
            self.before(&[b'0' + left as u8]);
        }
    }
}

// Lays a text over another of its length. A copy whose length is not known is a call to the C library, which takes
// longer than a short text does: so of 4 to 64 bytes the first and the last are copied, each in a length that is known.
#[inline(always)]
pub(crate) fn lay(over: &mut [u8], text: &[u8])
    requires { length text.now ≡ length over.old }
    ensures { over.new ≡ text.now }
{
    match text.len() {
        4..=8 => lay_ends::<4>(over, text),
        9..=16 => lay_ends::<8>(over, text),
        17..=32 => lay_ends::<16>(over, text),
        33..=64 => lay_ends::<32>(over, text),
        _ => over.copy_from_slice(text),
    }
}

// By its first and its last N bytes.
#[inline(always)]
fn lay_ends<const N: usize>(over: &mut [u8], text: &[u8])
    requires fits { length text.now ≡ length over.old }
    requires ends { (N ≤ length text.now) × (length text.now ≤ 2 * N) }
    ensures { over.new ≡ text.now }
{
    let last = text.len() - N;
    over[..N].copy_from_slice(&text[..N]);
    over[last..].copy_from_slice(&text[last..]);
}

// Both decimal digits of a number below 100.
#[tactic(auto, using(crate::proofs::Pairs::pair_at))]
fn two_digits(n: u64) -> [u8; 2]
    requires { n < 100 }
    ensures { result ≡ pair n }
{
    let at = 2 * n as usize;
    [PAIRS[at], PAIRS[at + 1]]
}
