ghost use Rattle.std.specs.Prelude.{◌≡◌};
ghost use Rattle.records.specs.Record.{step_bytes, flag_byte};
ghost use Rattle.records.specs.Writing.{Written};

use crate::step::{MARK, RECORD_LEN, Step};
use base::{Refusal, TIME_LIMIT};

// Writes the step's record at the front of `out` and answers its length.
#[tactic(auto, using(crate::proofs::RoundTrip::reads_back))]
pub fn write_step(step: Step, out: &mut [u8]) -> Result<usize, Refusal>
    ensures { Written step out.old result out.new }
{
    if step.time > TIME_LIMIT {
        return Err(Refusal::Time);
    }
    let Some(front) = out.first_chunk_mut::<RECORD_LEN>() else {
        return Err(Refusal::Output);
    };
    *front = record_of(step);
    Ok(RECORD_LEN)
}

// The 19 bytes of a step's record.
fn record_of(step: Step) -> [u8; RECORD_LEN]
    ensures { result ≡ step_bytes step }
{
    let mut record = [0; RECORD_LEN];
    record[0..2].copy_from_slice(&MARK);
    record[2] = flags_of(step);
    record[3..11].copy_from_slice(&step.time.to_be_bytes());
    record[11..15].copy_from_slice(&step.a.to_be_bytes());
    record[15..19].copy_from_slice(&step.b.to_be_bytes());
    record
}

// The five facts in one byte.
fn flags_of(step: Step) -> u8
    ensures { result ≡ flag_byte step }
{
    u8::from(step.power)
        | u8::from(step.reset) << 1
        | u8::from(step.self_test) << 2
        | u8::from(step.memory_failed) << 3
        | u8::from(step.clock_failed) << 4
}
