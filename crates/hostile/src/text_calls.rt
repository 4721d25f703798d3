use crate::common::*;
use base::*;
use control::*;
use display::*;
use gauges::*;
use monitor::*;
use report::*;
use std::test::Fail;
use switches::*;

#[test]
fn longest_line_has_64_bytes_and_is_written_whole_or_not(rt: HostRuntime) {
    let line = b"18446744073709551615 operating badlevdev H0 L0 A0 --.- S0 W0 C1\n";
    let mut state = State::dark(u64::MAX);
    state.mode = Mode::Operating;
    state.failure = FailureMode::Badlevdev;
    for room in [0, 63, 64, 65, ROOM] {
        let mut out = FILLED;
        assert!(rt; room <= ROOM);
        let answer = write_line(&state, &Panel::dark(), true, &mut out[..room]);
        check_written(&rt, answer, fitting(64, room), out, line);
    }
}

#[test]
fn longest_refusal_is_written_whole_or_not(rt: HostRuntime) {
    let line = b"refused 255 at 18446744073709551615\n";
    for room in [0, 35, 36, 64, ROOM] {
        let mut out = FILLED;
        assert!(rt; room <= ROOM);
        let answer = write_refusal(255, usize::MAX, &mut out[..room]);
        check_written(&rt, answer, fitting(36, room), out, line);
    }
}

#[test]
fn batch_stops_where_64_bytes_are_no_longer_left(rt: HostRuntime) {
    // two bad records and a cut one
    let bytes = [0u8; 40];
    // the place, the room, the place after it, the text
    let table = [
        (0, 0, 0, ""),
        (0, 63, 0, ""),
        (0, 64, 19, "refused 2 at 0\n"),
        (0, 78, 19, "refused 2 at 0\n"),
        (0, 79, 38, "refused 2 at 0\nrefused 2 at 19\n"),
        (
            0,
            4096,
            40,
            "refused 2 at 0\nrefused 2 at 19\nrefused 1 at 38\n",
        ),
        (38, 64, 40, "refused 1 at 38\n"),
        (40, 4096, 40, ""),
        (41, 4096, 41, ""),
        (usize::MAX, 4096, usize::MAX, ""),
    ];
    for (place, room, next, text) in table {
        let mut monitor = Monitor::set_up(Cell::new(), DirectContact::new(true), Plate::standard());
        let mut out = FILLED;
        assert!(rt; room <= ROOM);
        let done = write_lines(&mut monitor, &bytes, place, &mut out[..room]);
        assert_eq!(rt; done.place, next);
        check_written(&rt, Ok(done.written), Ok(text.len()), out, text.as_bytes());
    }
}

#[test]
fn report_takes_sessions_of_any_length(rt: HostRuntime) -> Result<(), Fail> {
    // how many zeros, the length of the report, and how it ends
    let table = [
        (0, 0, ""),
        (1, 15, "refused 1 at 0\n"),
        (18, 15, "refused 1 at 0\n"),
        (19, 15, "refused 2 at 0\n"),
        (20, 31, "refused 2 at 0\nrefused 1 at 19\n"),
        (60_799, 60_213, "refused 1 at 60781\n"),
        (60_800, 60_213, "refused 2 at 60781\n"),
        (60_801, 60_213, "refused 2 at 60781\n"),
        (200_000, 60_213, "refused 2 at 60781\n"),
    ];
    for (zeros, len, end) in table {
        let session = vec![in rt.alloc(); 0u8; zeros]?;
        let text = report(rt.alloc(), session.as_slice())?;
        assert!(rt; text.len() == len && text.as_slice().ends_with(end.as_bytes()));
    }
    Ok(())
}
