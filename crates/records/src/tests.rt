use super::*;
use base::{Refusal, TIME_LIMIT};

const LAST: Step = Step {
    time: TIME_LIMIT,
    a: 0xFFFF_FFFF,
    b: 1,
    power: true,
    reset: false,
    self_test: true,
    memory_failed: false,
    clock_failed: true,
};

// The number of the refusal, or 0 for a step: the numbers are tested, too.
fn refusal(bytes: &[u8]) -> u8 {
    match read_step(bytes, 0) {
        Ok(_) => 0,
        Err(fault) => fault.refusal.number(),
    }
}

#[test]
fn refuses_each_cause_in_the_tables_order(rt: HostRuntime) {
    let mut bytes = [0xFF; 19];
    assert_eq!(rt; refusal(&bytes[..18]), 1);
    assert_eq!(rt; refusal(&bytes), 2);
    bytes[0] = 0x57;
    bytes[1] = 0x4C;
    assert_eq!(rt; refusal(&bytes), 3);
    bytes[2] = 31;
    assert_eq!(rt; refusal(&bytes), 4);
    bytes[3] = 0;
    bytes[4] = 0;
    bytes[5] = 0;
    assert_eq!(rt; refusal(&bytes), 0);
}

#[test]
fn refuses_places_past_the_end_and_near_the_largest_number(rt: HostRuntime) {
    let bytes = b"WL\x01\0\0\0\0\0\0\0\0\0\0\0\0\0\0\0\0";
    for place in [1, 19, 20, usize::MAX - 18, usize::MAX] {
        let refusal = Refusal::Short;
        assert_eq!(rt;
            read_step(bytes, place),
            Err(RecordFault { refusal, place })
        );
    }
}

#[test]
fn reads_all_five_flags(rt: HostRuntime) {
    assert_eq!(rt; facts(1), Some([true, false, false, false, false]));
    assert_eq!(rt; facts(2), Some([false, true, false, false, false]));
    assert_eq!(rt; facts(4), Some([false, false, true, false, false]));
    assert_eq!(rt; facts(8), Some([false, false, false, true, false]));
    assert_eq!(rt; facts(16), Some([false, false, false, false, true]));
    assert_eq!(rt; facts(32), None);
}

// The five facts of a record with these flags.
fn facts(flags: u8) -> Option<[bool; 5]> {
    let mut bytes = *b"WL\0\0\0\0\0\0\0\0\0\0\0\0\0\0\0\0\0";
    bytes[2] = flags;
    let s = read_step(&bytes, 0).ok()?;
    Some([
        s.power,
        s.reset,
        s.self_test,
        s.memory_failed,
        s.clock_failed,
    ])
}

#[test]
fn writes_then_reads_the_same_step(rt: HostRuntime) {
    let mut out = [0; 20];
    assert_eq!(rt; write_step(LAST, &mut out), Ok(19));
    assert_eq!(rt; read_step(&out, 0), Ok(LAST));
}

#[test]
fn short_output_is_left_as_it_was(rt: HostRuntime) {
    let mut out = [7; 18];
    assert_eq!(rt; write_step(LAST, &mut out), Err(Refusal::Output));
    assert_eq!(rt; out, [7; 18]);
}
