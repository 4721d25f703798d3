// Takes words into gauges of every kind and prints what each reads, to be held against the reference
// program. Standard input has 16-byte entries of four 32-bit numbers, high byte first: the kind of
// gauge, the echo gauge's mount height as a float's bits, word A and word B.
#![tactic(auto)]

use base::Refusal;
use gauges::{Cell, Echo, Gauge, Pair, Reading};
use std::io::Write;
use std::num::f32_from_bits_with_nan;
use suite_input::{put_reading, read_all, word};

const ENTRY_LEN: usize = 16;

fn main(rt: HostRuntime) -> anyhow::Result<()> {
    let input = read_all(rt.alloc(), rt.stdin())?;
    let mut text = String::new(rt.alloc());
    for bytes in input.as_slice().chunks(ENTRY_LEN) {
        put_row(Entry::read(bytes), &mut text)?;
    }
    rt.stdout().write_all(text.as_bytes())?;
    Ok(())
}

#[derive(Clone, Copy)]
struct Entry {
    kind: u32,
    mount: u32,
    a: u32,
    b: u32,
}

impl Entry {
    fn read(bytes: &[u8]) -> Entry {
        Entry {
            kind: word(bytes, 0),
            mount: word(bytes, 4),
            a: word(bytes, 8),
            b: word(bytes, 12),
        }
    }
}

// The gauges that are tried. A pair is named by its gauges, the first one first.
#[derive(Clone, Copy)]
enum Kind {
    Echo,
    CellAndEcho,
    EchoAndCell,
    CellsAndEcho,
    EchoAndCells,
}

// 1 to 5; every other number stands for the last kind, too.
impl From<u32> for Kind {
    fn from(number: u32) -> Kind {
        match number {
            1 => Kind::Echo,
            2 => Kind::CellAndEcho,
            3 => Kind::EchoAndCell,
            4 => Kind::CellsAndEcho,
            _ => Kind::EchoAndCells,
        }
    }
}

fn put_row(entry: Entry, text: &mut String) -> anyhow::Result<()> {
    let Entry { kind, mount, a, b } = entry;
    write!(text, "{kind} {mount:08x} {a:08x} {b:08x}")?;
    match reading(entry) {
        Ok(reading) => {
            put_reading(reading, text)?;
            text.push_str("\n")?;
        }
        Err(refusal) => {
            let number = refusal.number();
            writeln!(text, " refused {number}")?;
        }
    }
    Ok(())
}

// What a new gauge of the entry's kind reads after it took the words.
fn reading(entry: Entry) -> Result<Reading, Refusal> {
    let Entry { kind, mount, a, b } = entry;
    let echo = Echo::new(f32_from_bits_with_nan(mount))?;
    let cells = Pair::new(Cell::new(), Cell::new());
    let reading = match Kind::from(kind) {
        Kind::Echo => taken(echo, a, b),
        Kind::CellAndEcho => taken(Pair::new(Cell::new(), echo), a, b),
        Kind::EchoAndCell => taken(Pair::new(echo, Cell::new()), a, b),
        Kind::CellsAndEcho => taken(Pair::new(cells, echo), a, b),
        Kind::EchoAndCells => taken(Pair::new(echo, cells), a, b),
    };
    Ok(reading)
}

fn taken<G: Gauge + Drop>(mut gauge: G, a: u32, b: u32) -> Reading {
    gauge.take(a, b);
    gauge.reading()
}
