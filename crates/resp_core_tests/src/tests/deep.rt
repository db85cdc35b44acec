//! Values of as many levels as a limit may allow. `tools/big-sessions` plays this test on a small stack.
use crate::tests::texts::shown;
use resp_core::*;
use std::alloc::Global;
use std::process::Abort;
use std::test::*;

// What opens a level, and what is behind the value within it: arrays, sets, pushes, maps by their keys
// and by their values, attributes by what they are of, by their keys and by their values.
const LEVELS_OF_A_KIND: &[(&[u8], &[u8])] = &[
    (b"*1\r\n", b""),
    (b"~1\r\n", b""),
    (b">2\r\n+k\r\n", b""),
    (b"%1\r\n", b":0\r\n"),
    (b"%1\r\n:0\r\n", b""),
    (b"|0\r\n", b""),
    (b"|1\r\n", b":0\r\n:0\r\n"),
    (b"|1\r\n:0\r\n", b":0\r\n"),
];

/// An error within 511 levels of a kind.
fn deepest(alloc: Global, open: &[u8], close: &[u8]) -> Result<Value, RedisError> {
    let mut parser = Parser::with_level_limit(alloc, MOST_LEVELS)?;
    for _ in 1..MOST_LEVELS {
        parser.feed(open)?;
    }
    parser.feed(b"-ERR deep\r\n")?;
    for _ in 1..MOST_LEVELS {
        parser.feed(close)?;
    }
    match parser.take_value()? {
        Some(value) => Ok(value),
        None => Err(RedisError::from(Cause::Io)),
    }
}

/// It is copied, compared, printed, searched and dropped; its text has a bracket for each level.
fn is_handled<R: Abort>(rt: &R, alloc: Global, value: Value) -> Result<(), Fail> {
    let copy = value.clone()?;
    assert!(rt; copy == value);
    let text = shown(alloc, copy)?;
    assert_eq!(rt; text.as_bytes().iter().filter(|b| **b == b'[').count(), 511);
    assert!(rt; value.first_error().is_some());
    assert!(rt; value.extract_error().is_err());
    Ok(())
}

#[test]
fn deepest_values(rt: HostRuntime) -> Result<(), Fail> {
    for (open, close) in LEVELS_OF_A_KIND {
        let value = deepest(rt.alloc(), open, close)?;
        is_handled(&rt, rt.alloc(), value)?;
    }
    Ok(())
}
