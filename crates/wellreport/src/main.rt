// Reads a session of step records from standard input and prints its report.
#![tactic(auto)]

use report::{SESSION_LIMIT, report};
use std::io::{Read, Write};

fn main(rt: HostRuntime) -> anyhow::Result<()> {
    let heap = rt.alloc();
    let mut session = Vec::new(heap);
    rt.stdin()
        .take(SESSION_LIMIT as u64)
        .read_to_end(&mut session)?;
    let text = report(heap, session.as_slice())?;
    rt.stdout().write_all(text.as_slice())?;
    Ok(())
}
