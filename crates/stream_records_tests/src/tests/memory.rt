//! One request for memory is refused, whichever: `tools/refused-tests` plays each test once for each.
//!
//! A test prints a line `refused CALL` where a call is refused, sees what then stands, and goes on;
//! no further call may be refused.
use crate::tests::answers::{reply, told};
use crate::tests::former::Former;
use crate::tests::grammar::{ENTRIES, READ, TEXTS};
use indexmap::IndexMap;
use refusals_for_tests::again;
use resp_args::{FromRedisValue, from_redis_value, from_redis_value_ref};
use resp_core::{ParsingError, Value};
use std::alloc::Global;
use std::fmt::Debug;
use std::io::Print;
use std::process::Abort;
use std::test::Fail;
use stream_commands::{StreamRangeReply, StreamReadReply};

fn made_reply<R: Print>(rt: &R, alloc: Global, letter: u8, seed: u64) -> Result<Value, Fail> {
    again(rt, "reply", || reply(alloc, letter, seed))
}

fn text<T: Debug, R: Print>(
    rt: &R,
    alloc: Global,
    outcome: &Result<T, ParsingError>,
) -> Result<String, Fail> {
    again(rt, "format", || told(alloc, outcome))
}

fn lacks_memory<T>(outcome: &Result<T, ParsingError>) -> bool {
    match outcome {
        Ok(_) => false,
        Err(e) => e.is_memory(),
    }
}

/// What the former conversion answers where no memory is refused.
fn wanted<T: Former + Debug, R: Print>(
    rt: &R,
    alloc: Global,
    value: &Value,
) -> Result<String, Fail> {
    let outcome = T::lent(alloc, value);
    if lacks_memory(&outcome) {
        println!(rt; "refused the former conversion")?;
        return text(rt, alloc, &T::lent(alloc, value));
    }
    text(rt, alloc, &outcome)
}

fn found_lent<T: FromRedisValue + Debug, R: Print>(
    rt: &R,
    alloc: Global,
    value: &Value,
) -> Result<String, Fail> {
    let outcome = from_redis_value_ref::<T>(alloc, value);
    if lacks_memory(&outcome) {
        println!(rt; "refused from_redis_value_ref")?;
        return text(rt, alloc, &from_redis_value_ref::<T>(alloc, value));
    }
    text(rt, alloc, &outcome)
}

fn found<T: FromRedisValue + Debug, R: Print>(
    rt: &R,
    alloc: Global,
    letter: u8,
    seed: u64,
) -> Result<String, Fail> {
    let value = made_reply(rt, alloc, letter, seed)?;
    let outcome = from_redis_value::<T>(alloc, value);
    if lacks_memory(&outcome) {
        println!(rt; "refused from_redis_value")?;
        let value = made_reply(rt, alloc, letter, seed)?;
        return text(rt, alloc, &from_redis_value::<T>(alloc, value));
    }
    text(rt, alloc, &outcome)
}

/// A conversion that memory is not refused answers what the former one answers: a value, or a cause.
fn is_same<T: FromRedisValue + Former + Debug, R: Abort + Print>(
    rt: &R,
    alloc: Global,
    letter: u8,
    row: (u64, bool),
) -> Result<(), Fail> {
    let (seed, is_read) = row;
    let value = made_reply(rt, alloc, letter, seed)?;
    let wanted = wanted::<T, R>(rt, alloc, &value)?;
    assert_eq!(rt; wanted.starts_with("read"), is_read, "{seed}");
    let lent = found_lent::<T, R>(rt, alloc, &value)?;
    assert_eq!(rt; lent.as_str(), wanted.as_str(), "lent, of {seed}");
    let owned = found::<T, R>(rt, alloc, letter, seed)?;
    assert_eq!(rt; owned.as_str(), wanted.as_str(), "owned, of {seed}");
    Ok(())
}

/// The same of each row.
fn are_same<T: FromRedisValue + Former + Debug, R: Abort + Print>(
    rt: &R,
    alloc: Global,
    letter: u8,
    rows: &[(u64, bool)],
) -> Result<(), Fail> {
    for row in rows {
        is_same::<T, R>(rt, alloc, letter, *row)?;
    }
    Ok(())
}

// Two replies in standard form and two in claim form, each with whether it is read. Those that are refused are so behind
// their first entry.
const READS: [(u64, bool); 4] = [(281, true), (548, false), (180, true), (206, false)];

#[test]
fn reads(rt: HostRuntime) -> Result<(), Fail> {
    are_same::<StreamReadReply, _>(&rt, rt.alloc(), READ, &READS)
}

// The second is refused behind its first entry.
const RANGES: [(u64, bool); 2] = [(29, true), (37, false)];

#[test]
fn ranges(rt: HostRuntime) -> Result<(), Fail> {
    are_same::<StreamRangeReply, _>(&rt, rt.alloc(), ENTRIES, &RANGES)
}

// The first has a name twice, and the second is refused at its third pair.
const MAPS: [(u64, bool); 2] = [(16, true), (23, false)];

#[test]
fn maps(rt: HostRuntime) -> Result<(), Fail> {
    are_same::<IndexMap<String, String>, _>(&rt, rt.alloc(), TEXTS, &MAPS)
}
