// Runs stored sessions through the monitor and prints what it answers, to be held against the reference
// program. The arguments name the session files. A session file has a header of six 32-bit numbers, high
// byte first: the plate's five and the length of the readout's output. Step records follow.
#![tactic(auto)]

use anyhow::Context;
use base::Refusal;
use control::{Plate, PlateNumbers};
use gauges::Cell;
use monitor::Monitor;
use records::RECORD_LEN;
use std::io::Write;
use std::{env, fs};
use suite_input::word;
use switches::DirectContact;

const HEADER_LEN: usize = 24;

// No stored session asks for a longer output.
const OUTPUT_LIMIT: usize = 1_024;

fn main(rt: HostRuntime) -> anyhow::Result<()> {
    let mut text = Vec::new(rt.alloc());
    for file in env::args(&rt)?.skip(1) {
        let session = fs::read(&rt, file.as_str())?;
        put_heading(file.as_str(), &mut text)?;
        put_session(session.as_slice(), &mut text)?;
    }
    rt.stdout().write_all(text.as_slice())?;
    Ok(())
}

// `== NAME`, without the file's ending.
fn put_heading(file: &str, text: &mut Vec<u8>) -> anyhow::Result<()> {
    let name = file.split_once(".session").map_or(file, |(name, _)| name);
    writeln!(text, "== {name}")?;
    Ok(())
}

fn put_session(session: &[u8], text: &mut Vec<u8>) -> anyhow::Result<()> {
    let (header, records) = session
        .split_at_checked(HEADER_LEN)
        .context("a session file is shorter than its header")?;
    let numbers = PlateNumbers {
        low_mark: word(header, 0),
        low_limit: word(header, 4),
        high_limit: word(header, 8),
        high_mark: word(header, 12),
        hysteresis: word(header, 16),
    };
    let length = word(header, 20) as usize;
    let mut output = [0u8; OUTPUT_LIMIT];
    let output = output
        .get_mut(..length)
        .context("a session asks for too long an output")?;
    match Plate::new(numbers) {
        Ok(plate) => put_records(plate, records, output, text),
        Err(refusal) => put_refusal(refusal, text),
    }
}

fn put_records(
    plate: Plate,
    records: &[u8],
    output: &mut [u8],
    text: &mut Vec<u8>,
) -> anyhow::Result<()> {
    let mut monitor = Monitor::set_up(Cell::new(), DirectContact::new(true), plate);
    for place in (0..records.len()).step_by(RECORD_LEN) {
        match monitor.feed(records, place) {
            Ok(_) => put_line(&monitor, output, text)?,
            Err(fault) => {
                let number = fault.refusal.number();
                let at = fault.place;
                writeln!(text, "refused {number} at {at}")?;
            }
        }
    }
    Ok(())
}

fn put_line(
    monitor: &Monitor<Cell, DirectContact>,
    output: &mut [u8],
    text: &mut Vec<u8>,
) -> anyhow::Result<()> {
    match monitor.readout(output) {
        Ok(len) => text.extend_from_slice(&output[..len])?,
        Err(refusal) => put_refusal(refusal, text)?,
    }
    Ok(())
}

fn put_refusal(refusal: Refusal, text: &mut Vec<u8>) -> anyhow::Result<()> {
    let number = refusal.number();
    writeln!(text, "refused {number}")?;
    Ok(())
}
