//! Options of XCLAIM, XAUTOCLAIM and XNACK.
use crate::tests::writing::{text, writes};
use std::test::*;
use stream_commands::*;

#[test]
fn claim_options(rt: HostRuntime) -> Result<(), Fail> {
    let last = text(rt.alloc(), "4-0")?;
    let options = StreamClaimOptions::empty()
        .with_lastid(last)
        .with_justid()
        .with_force()
        .retry(3)
        .time(2)
        .idle(9)
        .idle(1);
    assert!(rt; options.justid());
    writes(
        &rt,
        rt.alloc(),
        options,
        "IDLE 1 TIME 2 RETRYCOUNT 3 FORCE JUSTID LASTID 4-0",
    );
    writes(&rt, rt.alloc(), StreamClaimOptions::empty(), "");
    Ok(())
}

#[test]
fn autoclaim_options(rt: HostRuntime) {
    let options = StreamAutoClaimOptions::default().with_justid().count(25);
    writes(&rt, rt.alloc(), options, "COUNT 25 JUSTID");
    writes(&rt, rt.alloc(), StreamAutoClaimOptions::default(), "");
}

#[test]
fn nack_options(rt: HostRuntime) -> Result<(), Fail> {
    let copy = StreamNackMode::Fail.clone()?;
    assert!(rt; copy != StreamNackMode::Fatal);
    writes(&rt, rt.alloc(), copy, "FAIL");
    writes(&rt, rt.alloc(), StreamNackMode::Silent, "SILENT");
    let fatal = StreamNackOptions::new(StreamNackMode::Fatal);
    writes(&rt, rt.alloc(), fatal, "FATAL");
    Ok(())
}
