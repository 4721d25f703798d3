use crate::{Cause, Echo, Fault, Gauge, Reading};
use base::Refusal;
use std::test::Fail;

fn fault(cause: Cause) -> Reading {
    Err(Fault { cause, height: 0 })
}

// What an echo gauge at `mount` reads after word `a`.
fn echo_reads(mount: f32, a: u32) -> Result<Reading, Refusal> {
    let mut gauge = Echo::new(mount)?;
    gauge.take(a, 0);
    Ok(gauge.reading())
}

#[test]
fn echo_gauge_at_50_reads_each_kind_of_word(rt: HostRuntime) -> Result<(), Fail> {
    let table = [
        (0x41C4_0000, Ok(2_550_000)), // 24.5
        (0x41C0_0000, Ok(2_600_000)), // 24.0
        (0x8000_0000, Ok(5_000_000)), // minus zero
        (0x0000_0001, Ok(5_000_000)), // the least gap above zero
        (0x4248_0000, Ok(0)), // the mount height
        (0x4248_0001, fault(Cause::Reach)), // just above it
        (0xBF80_0000, fault(Cause::Reach)), // -1.0
        (0x7F80_0000, fault(Cause::Lost)), // infinity
        (0x7FC0_0000, fault(Cause::Lost)), // a NaN
    ];
    for (word, reading) in table {
        assert_eq!(rt; echo_reads(50.0, word)?, reading);
    }
    Ok(())
}

#[test]
fn echo_gauge_rounds_the_difference_once_and_its_units_down(rt: HostRuntime) -> Result<(), Fail> {
    assert_eq!(rt; echo_reads(100.0, 0x3680_0000)?, Ok(10_000_000));
    assert_eq!(rt; echo_reads(100.0, 0x3680_0001)?, Ok(9_999_999));
    assert_eq!(rt; echo_reads(1.0, 0x3F7F_FF58)?, Ok(1));
    assert_eq!(rt; echo_reads(1.0, 0x3F7F_FFFF)?, Ok(0));
    Ok(())
}

#[test]
fn echo_gauge_has_nothing_before_its_first_word(rt: HostRuntime) -> Result<(), Fail> {
    let gauge = Echo::new(1.0)?;
    assert_eq!(rt; gauge.reading(), fault(Cause::Nothing));
    Ok(())
}

#[test]
fn echo_gauge_refuses_a_mount_out_of_range(rt: HostRuntime) {
    assert!(rt; Echo::new(100.0).is_ok());
    assert_eq!(rt; echo_reads(0.99999994, 0), Err(Refusal::Setting));
    assert_eq!(rt; echo_reads(100.00001, 0), Err(Refusal::Setting));
    assert_eq!(rt; echo_reads(f32::NAN, 0), Err(Refusal::Setting));
}
