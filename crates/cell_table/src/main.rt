// Prints what the pressure cell reads at every word of its scale and at some beyond it, and what the
// standard plate says of each reading.
#![tactic(auto)]

use control::Plate;
use gauges::{Cell, Gauge};
use std::io::Write;
use suite_input::{digit, put_reading};

const BEYOND: [u32; 4] = [65_535, 65_536, 2_147_483_648, 4_294_967_295];

fn main(rt: HostRuntime) -> anyhow::Result<()> {
    let mut text = String::new(rt.alloc());
    for word in (0u32..260).chain(BEYOND) {
        put_row(word, &mut text)?;
    }
    rt.stdout().write_all(text.as_bytes())?;
    Ok(())
}

fn put_row(word: u32, text: &mut String) -> anyhow::Result<()> {
    let mut cell = Cell::new();
    cell.take(word, 0);
    let reading = cell.reading();
    write!(text, "{word}")?;
    put_reading(reading, text)?;
    let plate = Plate::standard();
    let past = digit(plate.is_past_mark(reading));
    let out = digit(plate.is_out_of_limits(reading));
    let settled = digit(plate.is_settled(reading));
    writeln!(text, " past {past} out {out} settled {settled}")?;
    Ok(())
}
