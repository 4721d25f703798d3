use crate::{put_reading, read_all};
use gauges::{Cause, fresh_fault};
use std::test::Fail;

#[test]
fn reads_all_that_is_left(rt: HostRuntime) -> Result<(), Fail> {
    let text = b"WL\x01";
    let read = read_all(rt.alloc(), text.as_slice())?;
    assert_eq!(rt; read.as_slice(), text.as_slice());
    Ok(())
}

#[test]
fn prints_levels_and_faults(rt: HostRuntime) -> Result<(), Fail> {
    let mut text = String::new(rt.alloc());
    put_reading(Ok(2_550_000), &mut text)?;
    put_reading(fresh_fault(Cause::Lost), &mut text)?;
    assert_eq!(rt; text.as_str(), " level 2550000 fault 2 height 0");
    Ok(())
}
