//! Options of XCFGSET and their ranges.
use crate::tests::writing::writes;
use std::alloc::{AllocError, Global};
use std::fmt::Display;
use std::test::*;
use stream_commands::*;

#[test]
fn config_options(rt: HostRuntime) -> Result<(), Fail> {
    let most = StreamConfigOptions::with_idempotency_seconds(
        IDMP_DURATION_MAX,
    )?.idempotency_maxsize(IDMP_MAXSIZE_MAX)?;
    let least = StreamConfigOptions::with_idempotency_maxsize(
        IDMP_MAXSIZE_MIN,
    )?.idempotency_seconds(IDMP_DURATION_MIN)?;
    let written = "IDMP-DURATION 86400 IDMP-MAXSIZE 10000";
    writes(&rt, rt.alloc(), most, written);
    writes(&rt, rt.alloc(), least, "IDMP-DURATION 1 IDMP-MAXSIZE 1");
    Ok(())
}

fn text_of<T: Display + Drop>(alloc: Global, error: Option<T>) -> Result<String, AllocError> {
    match error {
        Some(error) => error.to_string(alloc),
        None => format!(in alloc; "none"),
    }
}

fn seconds_text(alloc: Global, seconds: u32) -> Result<String, AllocError> {
    text_of(
        alloc,
        StreamConfigOptions::with_idempotency_seconds(seconds).err(),
    )
}

fn entries_text(alloc: Global, entries: u16) -> Result<String, AllocError> {
    text_of(
        alloc,
        StreamConfigOptions::with_idempotency_maxsize(entries).err(),
    )
}

#[test]
fn numbers_out_of_range(rt: HostRuntime) -> Result<(), Fail> {
    let most = seconds_text(rt.alloc(), 86401)?;
    let text = "IDMP-DURATION must be between 1 and 86400 seconds, got: 86401";
    assert_eq!(rt; most.as_str(), text);
    let least = entries_text(rt.alloc(), 0)?;
    let text = "IDMP-MAXSIZE must be between 1 and 10000 entries, got: 0";
    assert_eq!(rt; least.as_str(), text);
    Ok(())
}
