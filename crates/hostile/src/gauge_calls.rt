use base::*;
use gauges::*;
use std::test::Fail;

fn fault(cause: Cause, height: u8) -> Reading {
    Err(Fault { cause, height })
}

// What a gauge reads once it has taken the words.
fn reads<G: Gauge + Drop>(mut gauge: G, a: u32, b: u32) -> Reading {
    gauge.take(a, b);
    gauge.reading()
}

fn echo_reads(mount: f32, a: u32) -> Result<Reading, Refusal> {
    Ok(reads(Echo::new(mount)?, a, u32::MAX))
}

#[test]
fn cell_takes_words_0_to_255(rt: HostRuntime) {
    let table = [
        (0, Ok(1_273_372)),
        (255, Ok(2_726_614)),
        (256, fault(Cause::Scale, 0)),
        (u32::MAX, fault(Cause::Scale, 0)),
    ];
    for (word, reading) in table {
        assert_eq!(rt; reads(Cell::new(), word, u32::MAX), reading);
    }
}

#[test]
fn echo_takes_mounts_from_1_to_100(rt: HostRuntime) {
    assert_eq!(rt; echo_reads(1.0, 0), Ok(Ok(100_000)));
    assert_eq!(rt; echo_reads(100.0, 0), Ok(Ok(10_000_000)));
    let refused = [
        [0.99999994, 1e-45, 0.0, -0.0],
        [100.00001, 101.0, -1.0, f32::MIN],
        [f32::MAX, f32::INFINITY, f32::NEG_INFINITY, f32::NAN],
    ];
    for mounts in refused {
        for mount in mounts {
            assert_eq!(rt; echo_reads(mount, 0), Err(Refusal::Setting));
        }
    }
}

#[test]
fn echo_reads_gaps_from_0_to_the_mount(rt: HostRuntime) {
    let zero = Ok(0);
    let full = Ok(5_000_000);
    let reach = fault(Cause::Reach, 0);
    let lost = fault(Cause::Lost, 0);
    let table = [
        ([0x0000_0000, 0x0000_0001, 0x8000_0000], full), // minus zero is no gap below 0
        ([0x4247_FFFE, 0x4247_FFFF, 0x4248_0000], zero),
        ([0x8000_0001, 0x4248_0001, 0xC248_0000], reach),
        ([0x7F7F_FFFF, 0xFF7F_FFFF, 0x8080_0000], reach),
        ([0x7F80_0000, 0x7F80_0001, 0x7FFF_FFFF], lost),
        ([0xFF80_0000, 0xFF80_0001, 0xFFFF_FFFF], lost),
    ];
    for (words, reading) in table {
        for word in words {
            assert_eq!(rt; echo_reads(50.0, word), Ok(reading));
        }
    }
}

#[test]
fn pair_reads_the_middle_of_levels_up_to_50_000_apart(rt: HostRuntime) -> Result<(), Fail> {
    let table = [
        (0x41C4_0000, 0x41C0_0000, Ok(2_575_000)), // 50,000 apart
        (0x41C0_0000, 0x41C4_0000, Ok(2_575_000)),
        (0x41C4_0001, 0x41C0_0000, fault(Cause::Apart, 0)), // 50,001 apart
        (0x41C0_0000, 0x41C4_0001, fault(Cause::Apart, 0)),
        (0x41C4_0001, 0x41C4_0000, Ok(2_549_999)), // 1 apart
    ];
    for (a, b, reading) in table {
        let pair = Pair::new(Echo::new(50.0)?, Echo::new(50.0)?);
        assert_eq!(rt; reads(pair, a, b), reading);
    }
    Ok(())
}

#[test]
fn pair_of_pairs_raises_the_first_fault(rt: HostRuntime) -> Result<(), Fail> {
    let table = [
        (0, 0, fault(Cause::Apart, 0)), // echo gauge and inner pair
        (0, 255, fault(Cause::Apart, 1)), // the inner pair's cells
        (0, 256, fault(Cause::Scale, 2)),
        (256, 0, fault(Cause::Scale, 2)),
        (u32::MAX, 256, fault(Cause::Lost, 1)),
    ];
    for (a, b, reading) in table {
        let inner = Pair::new(Cell::new(), Cell::new());
        let outer = Pair::new(Echo::new(50.0)?, inner);
        assert_eq!(rt; reads(outer, a, b), reading);
    }
    Ok(())
}

#[test]
fn echo_is_restored_within_its_ranges_only(rt: HostRuntime) {
    // the mount, the level, whether there is such a gauge
    let table = [
        (50.0, 10_000_000, true),
        (50.0, 10_000_001, false),
        (1.0, u32::MAX, false),
        (f32::NAN, 0, false),
        (f32::INFINITY, 0, false),
        (100.00001, 0, false),
        (0.99999994, 0, false),
    ];
    for (mount, level, there) in table {
        assert_eq!(rt; Echo::restore(mount, Ok(level)).is_some(), there);
    }
}
