use base::*;
use std::test::Fail;
use switches::*;

const DAY: u64 = 86_400_000;

// Opens a switch at a tick and asks it to close at two later ones. At the last: whether it is free, answers
// closed, and is closed.
fn closes_after<S: Switch + Drop>(mut switch: S, opening: u64, later: [u64; 2]) -> [bool; 3] {
    switch.tick(opening);
    switch.open();
    switch.tick(later[0]);
    let _ = switch.close();
    switch.tick(later[1]);
    let free = switch.is_free();
    let closed = switch.close().is_ok();
    [free, closed, switch.is_closed()]
}

#[test]
fn rest_is_a_day_at_most(rt: HostRuntime) -> Result<(), Fail> {
    for millis in [DAY + 1, u64::MAX] {
        assert_eq!(rt; RestTime::new(millis).err(), Some(Refusal::Setting));
    }
    assert_eq!(rt; RestTime::new(DAY)?.millis(), DAY);
    Ok(())
}

#[test]
fn layer_closes_a_rest_after_the_opening_and_held_closings_change_nothing(
    rt: HostRuntime,
) -> Result<(), Fail> {
    // found closed, the rest, the opening tick, two ticks after it, and whether it closes at the second
    let table = [
        (true, 0, 0, [0, 0], true),
        (true, 1, 0, [0, 0], false),
        (true, 1_000, 0, [998, 999], false),
        (true, 1_000, 0, [999, 1_000], true),
        (true, DAY, 0, [DAY - 1, u64::MAX], true),
        (true, 10, u64::MAX - 10, [u64::MAX - 1, u64::MAX], true),
        (true, 11, u64::MAX - 10, [u64::MAX, u64::MAX], false), // opening and rest pass 64 bits
        (true, 0, u64::MAX, [0, 0], true), // the time goes back, and the rest begins there
        (true, 1, u64::MAX, [u64::MAX, 0], false),
        (true, 1_000, u64::MAX, [0, 999], false),
        (true, 1_000, u64::MAX, [0, 1_000], true),
        (false, DAY, u64::MAX, [0, 0], true), // it never went open
    ];
    for (closed, rest, opening, later, free) in table {
        let layer = Rest::new(DirectContact::new(closed), RestTime::new(rest)?);
        assert_eq!(rt; closes_after(layer, opening, later), [free; 3]);
    }
    Ok(())
}

#[test]
fn layers_over_layers_wait_for_the_longer_rest(rt: HostRuntime) -> Result<(), Fail> {
    let table = [
        (100, 300, 299, false),
        (100, 300, 300, true),
        (300, 100, 299, false),
        (300, 100, 300, true),
        (0, DAY, DAY, true),
    ];
    for (lower, upper, later, free) in table {
        let layer = Rest::new(DriveWord::new(0x00FF), RestTime::new(lower)?);
        let layers = Rest::new(layer, RestTime::new(upper)?);
        assert_eq!(rt; closes_after(layers, u64::MAX, [0, later]), [free; 3]);
    }
    Ok(())
}

#[test]
fn drive_is_closed_at_one_word_only(rt: HostRuntime) {
    for word in [0x0000, 0x00FE, 0x00FF, 0x0100, 0x01FF, 0xFF00, 0xFFFF] {
        let mut drive = DriveWord::new(word);
        drive.tick(u64::MAX);
        assert_eq!(rt; (drive.word(), drive.is_closed()), (word, word == 255));
        assert_eq!(rt; closes_after(drive, u64::MAX, [0, 0]), [true; 3]);
        drive.open();
        assert_eq!(rt; drive.word(), 0xFF00);
    }
}
