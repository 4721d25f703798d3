use crate::common::*;
use base::*;
use records::*;
use std::process::Abort;
use std::test::Fail;

// Flags 21, the time limit, words 1 and FFFFFFFF.
const RECORD: [u8; 19] = *b"WL\x15\x00\x00\x09\x18\x4E\x72\xA0\x00\x00\x00\x00\x01\xFF\xFF\xFF\xFF";

// The number of the refusal, or 0 for a step: the numbers are tested, too. A refusal names the place.
fn refusal(rt: &impl Abort, bytes: &[u8], place: usize) -> Result<u8, Fail> {
    match read_step(bytes, place) {
        Ok(_) => Ok(0),
        Err(fault) => {
            assert_eq!(rt; fault.place, place);
            Ok(fault.refusal.number())
        }
    }
}

#[test]
fn reads_only_where_19_bytes_are_left(rt: HostRuntime) -> Result<(), Fail> {
    for len in 0..19 {
        assert_eq!(rt; refusal(&rt, &RECORD[..len], 0)?, 1);
    }
    // The record stands at the end of 40 bytes.
    let mut bytes = [0; 40];
    bytes[21..40].copy_from_slice(&RECORD);
    for (first, last, number) in [(20, 20, 2), (22, 41, 1), (usize::MAX - 19, usize::MAX, 1)] {
        for place in first..=last {
            assert_eq!(rt; refusal(&rt, &bytes, place)?, number);
        }
    }
    assert_eq!(rt; read_step(&bytes, 21), Ok(step(21, TIME_LIMIT, 1)));
    Ok(())
}

#[test]
fn refuses_every_flag_byte_from_32_up(rt: HostRuntime) -> Result<(), Fail> {
    for flags in 0..=u8::MAX {
        let mut bytes = RECORD;
        bytes[2] = flags;
        assert_eq!(rt; refusal(&rt, &bytes, 0)?, if flags < 32 { 0 } else { 3 });
    }
    Ok(())
}

#[test]
fn names_the_first_of_several_causes(rt: HostRuntime) -> Result<(), Fail> {
    // how many bytes, the mark's first, the flags, the time, the refusal
    let table = [
        (18, b'L', 255, u64::MAX, 1),
        (18, b'W', 32, 0, 1),
        (18, b'W', 31, u64::MAX, 1),
        (19, b'L', 255, u64::MAX, 2),
        (19, b'L', 32, 0, 2),
        (19, b'L', 31, u64::MAX, 2),
        (19, b'W', 32, u64::MAX, 3),
        (19, b'W', 31, u64::MAX, 4),
        (19, b'W', 0, 1 << 63, 4),
        (19, b'W', 0, TIME_LIMIT + 1, 4),
        (19, b'W', 31, TIME_LIMIT, 0),
        (19, b'W', 0, TIME_LIMIT - 1, 0),
    ];
    for (len, mark, flags, time, number) in table {
        let mut bytes = RECORD;
        bytes[0] = mark;
        bytes[2] = flags;
        bytes[3..11].copy_from_slice(&u64::to_be_bytes(time));
        assert!(rt; len <= bytes.len());
        assert_eq!(rt; refusal(&rt, &bytes[..len], 0)?, number);
    }
    Ok(())
}

#[test]
fn writes_19_bytes_or_none(rt: HostRuntime) {
    let table = [
        (TIME_LIMIT, [0, 1, 18], Err(Refusal::Output)),
        (TIME_LIMIT, [19, 20, ROOM], Ok(19)),
        (TIME_LIMIT + 1, [0, 18, 19], Err(Refusal::Time)),
        (u64::MAX, [0, 19, ROOM], Err(Refusal::Time)),
    ];
    for (time, rooms, expected) in table {
        for room in rooms {
            let mut out = FILLED;
            assert!(rt; room <= ROOM);
            let answer = write_step(step(21, time, 1), &mut out[..room]);
            check_written(&rt, answer, expected, out, &RECORD);
        }
    }
}

#[test]
fn a_step_takes_flags_up_to_31_and_times_up_to_the_limit(rt: HostRuntime) {
    let table = [
        (21, TIME_LIMIT, Ok(step(21, TIME_LIMIT, 0))),
        (32, 0, Err(Refusal::Flags)),
        (u32::MAX, u64::MAX, Err(Refusal::Flags)),
        (31, TIME_LIMIT + 1, Err(Refusal::Time)),
        (0, u64::MAX, Err(Refusal::Time)),
    ];
    for (flags, time, answer) in table {
        assert_eq!(rt; Step::from_flags(flags, time, 0, u32::MAX), answer);
    }
}
