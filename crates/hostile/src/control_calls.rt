use base::*;
use control::*;
use gauges::*;
use std::test::Fail;

const Y: bool = true;

const N: bool = false;

// A plate from low mark, low limit, high limit, high mark and hysteresis.
fn plate(numbers: [u32; 5]) -> Result<Plate, Refusal> {
    let [low_mark, low_limit, high_limit, high_mark, hysteresis] = numbers;
    Plate::new(PlateNumbers {
        low_mark,
        low_limit,
        high_limit,
        high_mark,
        hysteresis,
    })
}

#[test]
fn plate_keeps_its_rules_in_exact_arithmetic(rt: HostRuntime) -> Result<(), Fail> {
    for numbers in [[0, 1, 3, 4, 1], [0, 1, 9_989_999, 9_990_000, 4_994_999]] {
        assert_eq!(rt; plate(numbers)?.numbers().hysteresis, numbers[4]);
    }
    let refused = [
        [0; 5],
        [u32::MAX; 5],
        [1, 1, 3, 4, 1], // each rule broken by one
        [0, 2, 3, 4, 1],
        [0, 1, 3, 3, 1],
        [0, 1, 3, 4, 0],
        [0, 1, 9_989_999, 9_990_001, 1],
        [0, 1, 9_989_999, 9_990_000, 4_995_000],
        [0, 1, 3, 4, 0x8000_0000], // sums that would wrap in 32 bits
        [0, 2, 3, 4, 0x7FFF_FFFF],
        [0, 5, 6, 7, 0xFFFF_FFFF],
        [0, u32::MAX, 3, 4, 1],
    ];
    for numbers in refused {
        assert_eq!(rt; plate(numbers).err(), Some(Refusal::Setting));
    }
    Ok(())
}

// Past a mark, low, high, out of limits, settled.
fn said(plate: &Plate, reading: Reading) -> [bool; 5] {
    [
        plate.is_past_mark(reading),
        plate.is_low(reading),
        plate.is_high(reading),
        plate.is_out_of_limits(reading),
        plate.is_settled(reading),
    ]
}

#[test]
fn plate_tells_both_sides_of_each_bound(rt: HostRuntime) -> Result<(), Fail> {
    let plate = plate([1, 2, 9_989_999, 9_990_000, 4_000_000])?;
    let table = [
        ([0, 0], [Y, Y, N, Y, N]),
        ([1, 2], [N, Y, N, Y, N]),
        ([3, 4_000_001], [N, N, N, N, N]),
        ([4_000_002, 5_989_999], [N, N, N, N, Y]),
        ([5_990_000, 9_989_998], [N, N, N, N, N]),
        ([9_989_999, 9_990_000], [N, N, Y, Y, N]),
        ([9_990_001, u32::MAX], [Y, N, Y, Y, N]),
    ];
    for (levels, expected) in table {
        for level in levels {
            assert_eq!(rt; said(&plate, Ok(level)), expected);
        }
    }
    let cause = Cause::Nothing;
    let faulty = Err(Fault { cause, height: 255 });
    assert_eq!(rt; said(&plate, faulty), [N; 5]);
    Ok(())
}

#[test]
fn button_time_is_never_below_0(rt: HostRuntime) {
    // pressed first at, still down at, and its time then
    let table = [
        (0, 0, 0),
        (0, u64::MAX, u64::MAX),
        (u64::MAX - 1, u64::MAX, 1),
        (u64::MAX, u64::MAX, 0),
        (u64::MAX, 0, 0),
    ];
    for (first, now, held) in table {
        let down = Button::up(0).next(true, first).next(true, now);
        assert_eq!(rt;
            [down.held(now), down.next(false, now).held(now)],
            [held, 0]
        );
    }
}
