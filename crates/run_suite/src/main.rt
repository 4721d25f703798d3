// Runs whole monitors over several gauges and switches and prints their lines, to be held against the reference
// program. Standard input has runs: a header of four 32-bit numbers, high byte first (the kind of monitor, the
// echo gauge's mount height as a float's bits, the rest in milliseconds, the number of records), and the
// step records.
#![tactic(auto)]

use anyhow::{Context, ensure};
use control::Plate;
use display::LINE_LEN;
use gauges::{Cell, Echo, Gauge, Pair};
use monitor::Monitor;
use records::RECORD_LEN;
use report::write_lines;
use std::io::Write;
use std::num::f32_from_bits_with_nan;
use suite_input::{read_all, word};
use switches::{CLOSED_WORD, DirectContact, DriveWord, Rest, RestTime, Switch};

const HEADER_LEN: usize = 16;

fn main(rt: HostRuntime) -> anyhow::Result<()> {
    let heap = rt.alloc();
    let input = read_all(heap, rt.stdin())?;
    let mut text = Vec::new(heap);
    let mut left = input.as_slice();
    while let Some((header, behind)) = left.split_at_checked(HEADER_LEN) {
        let run = Header::read(header);
        let (records, next) = behind
            .split_at_checked(run.count.saturating_mul(RECORD_LEN))
            .context("a run is cut short")?;
        put_run(run, records, &mut text)?;
        left = next;
    }
    ensure!(left.is_empty(), "a run is cut short");
    rt.stdout().write_all(text.as_slice())?;
    Ok(())
}

#[derive(Clone, Copy)]
struct Header {
    kind: u32,
    mount: f32,
    rest: u32,
    // how many records follow
    count: usize,
}

impl Header {
    fn read(bytes: &[u8]) -> Header {
        Header {
            kind: word(bytes, 0),
            mount: f32_from_bits_with_nan(word(bytes, 4)),
            rest: word(bytes, 8),
            count: word(bytes, 12) as usize,
        }
    }
}

// The monitors that are tried.
#[derive(Clone, Copy)]
enum Kind {
    EchoAndRest,
    CellsAndRests,
    EchoAndCell,
}

// Every number but 1 and 2 stands for the last kind.
impl From<u32> for Kind {
    fn from(number: u32) -> Kind {
        match number {
            1 => Kind::EchoAndRest,
            2 => Kind::CellsAndRests,
            _ => Kind::EchoAndCell,
        }
    }
}

fn put_run(run: Header, records: &[u8], text: &mut Vec<u8>) -> anyhow::Result<()> {
    let kind = run.kind;
    writeln!(text, "run {kind}")?;
    // By `ok`: the message is all, without the refusal's own text.
    let echo = Echo::new(run.mount).ok().context("a run has a bad mount")?;
    let rest = RestTime::new(u64::from(run.rest))
        .ok()
        .context("a run has a bad rest")?;
    let half_rest = RestTime::new(u64::from(run.rest / 2))
        .ok()
        .context("a run has a bad rest")?;
    let cell = Cell::new();
    let contact = DirectContact::new(true);
    match Kind::from(kind) {
        Kind::EchoAndRest => {
            let drive = DriveWord::new(CLOSED_WORD);
            put_lines(echo, Rest::new(drive, rest), records, text)
        }
        Kind::CellsAndRests => {
            let rests = Rest::new(Rest::new(contact, rest), half_rest);
            put_lines(Pair::new(cell, Cell::new()), rests, records, text)
        }
        Kind::EchoAndCell => put_lines(Pair::new(echo, cell), contact, records, text),
    }
}

// A monitor over the gauge and the switch, and its line after each record.
fn put_lines<G: Gauge + Drop, S: Switch + Drop>(
    gauge: G,
    switch: S,
    records: &[u8],
    text: &mut Vec<u8>,
) -> anyhow::Result<()> {
    let mut monitor = Monitor::set_up(gauge, switch, Plate::standard());
    let begin = text.len();
    let room = (records.len() / RECORD_LEN).saturating_mul(LINE_LEN);
    text.resize(begin.saturating_add(room), 0)?;
    let done = write_lines(&mut monitor, records, 0, &mut text[begin..]);
    text.truncate(begin.saturating_add(done.written));
    Ok(())
}
