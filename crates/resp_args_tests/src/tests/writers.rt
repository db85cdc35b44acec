//! What each type is written as.
use indexmap::IndexMap;
use resp_args::ToRedisArgs;
use std::alloc::{AllocError, Global};
use std::process::Abort;
use std::test::Fail;

/// The arguments, each with a bar behind it.
fn words<T: ToRedisArgs>(alloc: Global, value: &T) -> Result<Vec<u8>, AllocError> {
    let mut out = Vec::new(alloc);
    for arg in value.to_redis_args(alloc)? {
        out.extend_from_slice(&arg)?;
        out.push(b'|')?;
    }
    Ok(out)
}

fn writes<T: ToRedisArgs + Drop, R: Abort>(rt: &R, alloc: Global, value: T, expected: &str) {
    match words(alloc, &value) {
        Ok(found) => assert_eq!(rt; found.as_slice(), expected.as_bytes()),
        Err(_) => assert!(rt; false, "memory was refused"),
    }
}

#[test]
fn one_argument(rt: HostRuntime) -> Result<(), Fail> {
    let alloc = rt.alloc();
    let text = format!(in alloc; "text")?;
    writes(&rt, alloc, text, "text|");
    let bytes = Vec::from_slice(alloc, b"bytes")?;
    writes(&rt, alloc, bytes, "bytes|");
    writes(&rt, alloc, true, "1|");
    writes(&rt, alloc, 255u8, "255|");
    writes(&rt, alloc, 65535u16, "65535|");
    writes(&rt, alloc, 4294967295u32, "4294967295|");
    writes(&rt, alloc, u64::MAX, "18446744073709551615|");
    writes(&rt, alloc, usize::MAX, "18446744073709551615|");
    writes(&rt, alloc, -128i8, "-128|");
    writes(&rt, alloc, -32768i16, "-32768|");
    writes(&rt, alloc, i32::MIN, "-2147483648|");
    writes(&rt, alloc, i64::MIN, "-9223372036854775808|");
    writes(&rt, alloc, isize::MAX, "9223372036854775807|");
    writes(&rt, alloc, "a b", "a b|");
    writes(&rt, alloc, b"bytes".as_slice(), "bytes|");
    writes(&rt, alloc, &7i64, "7|");
    Ok(())
}

fn two_fields(alloc: Global) -> Result<IndexMap<&'static str, i32>, AllocError> {
    let mut map = IndexMap::new(alloc);
    drop(map.insert("z", 1)?);
    drop(map.insert("a", 2)?);
    Ok(map)
}

#[test]
fn several_or_none(rt: HostRuntime) -> Result<(), Fail> {
    let alloc = rt.alloc();
    let numbers = Vec::from_slice(alloc, &[1u16, 2])?;
    writes(&rt, alloc, numbers, "1|2|");
    let map = two_fields(alloc)?;
    writes(&rt, alloc, map, "z|1|a|2|");
    writes(&rt, alloc, None::<i64>, "");
    writes(&rt, alloc, ["a", "b"].as_slice(), "a|b|");
    writes(&rt, alloc, ("a", 1), "a|1|");
    writes(&rt, alloc, ("a", Some(1), true), "a|1|1|");
    writes(&rt, alloc, (1, 2, 3, 4), "1|2|3|4|");
    Ok(())
}

fn slices(alloc: Global) -> Result<Vec<Vec<u8>>, AllocError> {
    let mut out = Vec::new(alloc);
    u8::write_args_from_slice(b"ab", &mut out)?;
    i64::write_args_from_slice(&[3, 4], &mut out)?;
    Ok(out)
}

#[test]
fn slices_of_bytes_are_one_argument(rt: HostRuntime) -> Result<(), Fail> {
    let out = slices(rt.alloc())?;
    writes(&rt, rt.alloc(), out, "ab|3|4|");
    assert!(rt; i64::slice_as_bytes(&[3, 4]).is_none());
    Ok(())
}
