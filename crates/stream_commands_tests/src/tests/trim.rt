//! Trimming.
use crate::tests::writing::{text, writes};
use std::test::*;
use stream_commands::*;

#[test]
fn trim_options(rt: HostRuntime) -> Result<(), Fail> {
    let alloc = rt.alloc();
    let id = text(alloc, "123456-7")?;
    let from = StreamTrimOptions::minid(StreamTrimmingMode::Exact, id).limit(5);
    writes(&rt, alloc, from, "MINID = 123456-7 LIMIT 5");
    let about = StreamTrimOptions::maxlen(StreamTrimmingMode::Approx, 10)
        .limit(5)
        .set_deletion_policy(StreamDeletionPolicy::Acked);
    writes(&rt, alloc, about, "MAXLEN ~ 10 LIMIT 5 ACKED");
    Ok(())
}

#[test]
fn trim_strategies(rt: HostRuntime) -> Result<(), Fail> {
    let alloc = rt.alloc();
    let id = text(alloc, "5-0")?;
    let from = StreamTrimStrategy::minid(StreamTrimmingMode::Exact, id);
    writes(&rt, alloc, from, "MINID = 5-0");
    let most = StreamTrimStrategy::maxlen(StreamTrimmingMode::Approx, 7)
        .limit(3)
        .limit(0);
    writes(&rt, alloc, most, "MAXLEN ~ 7 LIMIT 0");
    Ok(())
}

#[test]
fn maxlens_and_modes(rt: HostRuntime) -> Result<(), Fail> {
    let alloc = rt.alloc();
    let copy = StreamMaxlen::Equals(10).clone()?;
    assert!(rt; copy == StreamMaxlen::Equals(10));
    assert!(rt; copy != StreamMaxlen::Approx(10));
    writes(&rt, alloc, copy, "MAXLEN = 10");
    writes(&rt, alloc, StreamMaxlen::Approx(0), "MAXLEN ~ 0");
    writes(&rt, alloc, StreamTrimmingMode::Exact, "=");
    writes(&rt, alloc, StreamTrimmingMode::Approx, "~");
    Ok(())
}
