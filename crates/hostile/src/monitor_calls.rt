use crate::common::*;
use base::*;
use control::*;
use gauges::*;
use monitor::*;
use records::*;
use std::process::Abort;
use std::test::Fail;
use switches::*;

fn started(time: u64) -> Result<Monitor<Cell, DirectContact>, Refusal> {
    let mut monitor = Monitor::set_up(Cell::new(), DirectContact::new(true), Plate::standard());
    monitor.step(step(1, time, 128))?;
    Ok(monitor)
}

// The readout writes this line where there is room for it, and nothing else.
fn check_line<G: Gauge, S: Switch>(rt: &impl Abort, monitor: &Monitor<G, S>, line: &str) {
    let len = line.len();
    for room in [0, len.saturating_sub(1), len, 64, ROOM] {
        let mut out = FILLED;
        assert!(rt; room <= ROOM);
        let answer = monitor.readout(&mut out[..room]);
        check_written(rt, answer, fitting(len, room), out, line.as_bytes());
    }
}

#[test]
fn clock_and_watchdog_go_by_the_last_accepted_step(rt: HostRuntime) -> Result<(), Fail> {
    // After a start at 1,000 and a refused step: flags (30 is all but power), time, and the line then.
    let table = [
        (1, 0, "0 standby hardfail H1 L1 A1 --.- S0 W1 C0\n"),
        (1, 999, "999 standby hardfail H1 L1 A1 --.- S0 W1 C0\n"),
        (1, 1_000, "1000 standby hardfail H1 L1 A1 --.- S0 W1 C0\n"),
        (1, 1_001, "1001 standby allok H0 L0 A0 20.0 S0 W1 C0\n"),
        (1, 1_499, "1499 standby allok H0 L0 A0 20.0 S0 W1 C0\n"),
        (1, 1_500, "1500 standby allok H0 L0 A0 20.0 S0 W0 C0\n"),
        (30, 0, "0 dark allok H0 L0 A0 --.- S0 W0 C0\n"),
        (30, 1_500, "1500 dark allok H0 L0 A0 --.- S0 W0 C0\n"),
        (
            30,
            TIME_LIMIT,
            "10000000000000 dark allok H0 L0 A0 --.- S0 W0 C0\n",
        ),
    ];
    for (flags, time, line) in table {
        let mut monitor = started(1_000)?;
        let refused = monitor.step(step(30, TIME_LIMIT + 1, 128));
        assert_eq!(rt; refused, Err(Refusal::Time));
        let word = if flags == 1 { 128 } else { u32::MAX };
        monitor.step(step(flags, time, word))?;
        check_line(&rt, &monitor, line);
    }
    Ok(())
}

// Records with a wrong mark, a wrong flag and a wrong time, and a good one at 1,499.
const RECORDS: [u8; 76] = *b"\
    WW\x01\0\0\0\0\0\0\x05\xDB\0\0\0\x80\0\0\0\0\
    WL\x21\0\0\0\0\0\0\x05\xDB\0\0\0\x80\0\0\0\0\
    WL\x01\xFF\0\0\0\0\0\x05\xDB\0\0\0\x80\0\0\0\0\
    WL\x01\0\0\0\0\0\0\x05\xDB\0\0\0\x80\0\0\0\0";

#[test]
fn refused_calls_leave_the_monitor_as_it_was(rt: HostRuntime) -> Result<(), Fail> {
    let mut monitor = started(1_000)?;
    // how many bytes, the place, the refusal
    let table = [
        (0, 0, Refusal::Short),
        (0, usize::MAX, Refusal::Short),
        (76, 58, Refusal::Short),
        (76, 76, Refusal::Short),
        (76, usize::MAX - 18, Refusal::Short),
        (76, 0, Refusal::Mark),
        (76, 56, Refusal::Mark),
        (76, 19, Refusal::Flags),
        (76, 38, Refusal::Time),
    ];
    for (len, place, refusal) in table {
        assert!(rt; len <= RECORDS.len());
        let fed = monitor.feed(&RECORDS[..len], place);
        assert_eq!(rt; fed, Err(RecordFault { refusal, place }));
        let stepped = monitor.step(step(30, u64::MAX, 0));
        assert_eq!(rt; stepped, Err(Refusal::Time));
        check_line(&rt, &monitor, "1000 standby allok H0 L0 A0 20.0 S0 W1 C0\n");
    }
    assert_eq!(rt; monitor.feed(&RECORDS, 57), Ok(76));
    check_line(&rt, &monitor, "1499 standby allok H0 L0 A0 20.0 S0 W1 C0\n");
    Ok(())
}

#[test]
fn set_up_takes_gauge_and_switch_in_any_state(rt: HostRuntime) -> Result<(), Fail> {
    let runs = "3600 operating allok H0 L0 A0 20.0 S1 W1 C1\n";
    let rests = "3600 operating allok H0 L0 A0 20.0 S1 W1 C0\n";
    // the drive's word, the last tick before, the rest, and the line when the pump is first asked to run
    let table = [
        (0x00FF, 0, 3_600, runs),
        (0x00FF, 0, 3_601, rests),
        (0x00FF, u64::MAX, 3_600, runs),
        (0x00FF, u64::MAX, 3_601, rests),
        (0xFFFF, u64::MAX, 86_400_000, runs),
    ];
    for (word, tick, rest, line) in table {
        let mut gauge = Cell::new();
        gauge.take(u32::MAX, 0);
        let mut layer = Rest::new(DriveWord::new(word), RestTime::new(rest)?);
        layer.tick(tick);
        let mut monitor = Monitor::set_up(gauge, layer, Plate::standard());
        check_line(&rt, &monitor, "0 dark allok H0 L0 A0 --.- S0 W0 C0\n");
        for k in 0..9 {
            monitor.step(step(3, 400 * k, 128))?; // reset down
        }
        monitor.step(step(1, 3_600, 128))?;
        check_line(&rt, &monitor, line);
    }
    Ok(())
}
