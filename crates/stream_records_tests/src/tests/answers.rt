//! Today's conversions answer of each reply what the former ones answer: the value, or the cause.
use crate::tests::former::Former;
use crate::tests::grammar::{ENTRIES, ENTRY, READ, TEXTS};
use crate::tests::made::made;
use indexmap::IndexMap;
use resp_args::{FromRedisValue, from_redis_value, from_redis_value_ref};
use resp_core::{ParsingError, RedisError, Value, parse_redis_value};
use std::alloc::{AllocError, Global};
use std::fmt::Debug;
use std::process::Abort;
use std::test::Fail;
use stream_commands::{StreamClaimReply, StreamRangeReply, StreamReadReply};

// How many numbers make a reply.
const SEEDS: u64 = 2000;

/// The value, or why there is none.
pub(crate) fn told<T: Debug>(
    alloc: Global,
    outcome: &Result<T, ParsingError>,
) -> Result<String, AllocError> {
    match outcome {
        Ok(value) => format!(in alloc; "read {value:?}"),
        Err(e) => format!(in alloc; "refused: {e}"),
    }
}

/// The reply that a number makes of a letter of the grammar.
pub(crate) fn reply(alloc: Global, letter: u8, seed: u64) -> Result<Value, RedisError> {
    let bytes = made(alloc, letter, seed)?;
    parse_redis_value(alloc, &bytes)
}

/// Today's conversion of a lent reply answers what the former one answers.
fn is_same_lent<T: FromRedisValue + Former + Debug, R: Abort>(
    rt: &R,
    alloc: Global,
    value: &Value,
    seed: u64,
) -> Result<(), AllocError> {
    let wanted = told(alloc, &T::lent(alloc, value))?;
    let found = told(alloc, &from_redis_value_ref::<T>(alloc, value))?;
    assert_eq!(rt; found.as_str(), wanted.as_str(), "lent, of {seed}");
    Ok(())
}

/// The same of a reply that is given, and whether it is read.
fn is_same<T: FromRedisValue + Former + Debug, R: Abort>(
    rt: &R,
    alloc: Global,
    value: Value,
    seed: u64,
) -> Result<bool, AllocError> {
    let wanted = told(alloc, &T::owned(alloc, value.clone()?))?;
    let found = told(alloc, &from_redis_value::<T>(alloc, value))?;
    assert_eq!(rt; found.as_str(), wanted.as_str(), "owned, of {seed}");
    Ok(found.starts_with("read"))
}

fn is_read<T: FromRedisValue + Former + Debug, R: Abort>(
    rt: &R,
    alloc: Global,
    letter: u8,
    seed: u64,
) -> Result<bool, RedisError> {
    let value = reply(alloc, letter, seed)?;
    is_same_lent::<T, R>(rt, alloc, &value, seed)?;
    Ok(is_same::<T, R>(rt, alloc, value, seed)?)
}

/// Each reply is answered as before; a fourth of them or more are read, and a tenth or more are refused.
fn are_same<T: FromRedisValue + Former + Debug, R: Abort>(
    rt: &R,
    alloc: Global,
    letter: u8,
) -> Result<(), Fail> {
    let mut read: u64 = 0;
    for seed in 0..SEEDS {
        if is_read::<T, R>(rt, alloc, letter, seed)? {
            read = read.wrapping_add(1);
        }
    }
    assert!(rt; read >= 500 && read <= 1800, "{read} of them are read");
    Ok(())
}

#[test]
fn reads(rt: HostRuntime) -> Result<(), Fail> {
    are_same::<StreamReadReply, _>(&rt, rt.alloc(), READ)
}

#[test]
fn ranges(rt: HostRuntime) -> Result<(), Fail> {
    are_same::<StreamRangeReply, _>(&rt, rt.alloc(), ENTRIES)
}

#[test]
fn claims(rt: HostRuntime) -> Result<(), Fail> {
    are_same::<StreamClaimReply, _>(&rt, rt.alloc(), ENTRIES)
}

#[test]
fn maps(rt: HostRuntime) -> Result<(), Fail> {
    are_same::<IndexMap<String, String>, _>(&rt, rt.alloc(), TEXTS)
}

#[test]
fn maps_of_maps(rt: HostRuntime) -> Result<(), Fail> {
    are_same::<IndexMap<String, IndexMap<String, Value>>, _>(&rt, rt.alloc(), ENTRY)
}
