//! What replies are read as.
use indexmap::IndexMap;
use resp_args::{FromRedisValue, from_redis_value, from_redis_value_ref};
use resp_core::{ParsingError, RedisError, Value, parse_redis_value};
use std::alloc::{AllocError, Global};
use std::fmt::Debug;
use std::process::Abort;

pub(crate) fn shown<T: Debug>(alloc: Global, value: &T) -> Result<String, AllocError> {
    format!(in alloc; "{value:?}")
}

/// The value, or that it was refused, and whether for want of memory.
fn told<T: Debug + Drop>(
    alloc: Global,
    outcome: Result<T, ParsingError>,
) -> Result<String, AllocError> {
    match outcome {
        Ok(value) => shown(alloc, &value),
        Err(e) => {
            let word = if e.is_memory() { "memory" } else { "refused" };
            format!(in alloc; "{word}")
        }
    }
}

/// What the owned and the lent form give, once where it is the same.
fn add<T: FromRedisValue + Debug>(found: &mut String, bytes: &[u8]) -> Result<(), RedisError> {
    let alloc = *found.allocator();
    let value = parse_redis_value(alloc, bytes)?;
    let lent = told(alloc, from_redis_value_ref::<T>(alloc, &value))?;
    let owned = told(alloc, from_redis_value::<T>(alloc, value))?;
    found.push_str(owned.as_str())?;
    if lent != owned {
        found.push_str(" but lent ")?;
        found.push_str(lent.as_str())?;
    }
    found.push_str("; ")?;
    Ok(())
}

/// The replies are read as these values.
fn reads<T: FromRedisValue + Debug, R: Abort>(
    rt: &R,
    alloc: Global,
    replies: &[&[u8]],
    expected: &str,
) {
    let mut found = String::new(alloc);
    for bytes in replies {
        if add::<T>(&mut found, bytes).is_err() {
            assert!(rt; false, "no whole reply");
        }
    }
    assert_eq!(rt; found.as_str(), expected);
}

const TRUTHS: &[&[u8]] = &[
    b":2\r\n",
    b":-1\r\n",
    b"#t\r\n",
    b"+OK\r\n",
    b"+1\r\n",
    b"$1\r\n1\r\n",
    b"|1\r\n+k\r\n+v\r\n#t\r\n",
    b"_\r\n",
    b":0\r\n",
    b"#f\r\n",
    b"+0\r\n",
    b"$1\r\n0\r\n",
    b"+yes\r\n",
    b"$0\r\n\r\n",
    b"$2\r\n10\r\n",
    b",1\r\n",
    b"(1\r\n",
    b"-ERR x\r\n",
    b"*0\r\n",
];

#[test]
fn truths(rt: HostRuntime) {
    let expected =
        "true; true; true; true; true; true; true; false; false; false; false; false; refused; refused; refused; refused; refused; refused; refused; ";
    reads::<bool, _>(&rt, rt.alloc(), TRUTHS, expected);
}

const NO_NUMBERS: &[&[u8]] = &[
    b"+7\r\n",
    b"_\r\n",
    b"+OK\r\n",
    b"#t\r\n",
    b",7\r\n",
    b"(7\r\n",
    b"=5\r\ntxt:7\r\n",
    b"-ERR x\r\n",
    b"*1\r\n:7\r\n",
];

#[test]
fn numbers(rt: HostRuntime) {
    let alloc = rt.alloc();
    let expected = "7; refused; refused; refused; refused; refused; refused; refused; refused; ";
    reads::<isize, _>(&rt, alloc, NO_NUMBERS, expected);
    reads::<u8, _>(&rt, alloc, &[b":255\r\n", b":300\r\n"], "255; refused; ");
    let least = [
        b"|1\r\n+k\r\n:1\r\n:5\r\n".as_slice(),
        b"$20\r\n-9223372036854775808\r\n",
        b"+9223372036854775808\r\n",
    ];
    reads::<i64, _>(&rt, alloc, &least, "5; -9223372036854775808; refused; ");
}

/// A number that the type holds, and one that it does not.
#[test]
fn bounded_numbers(rt: HostRuntime) {
    let alloc = rt.alloc();
    let edges = [b"+65535\r\n".as_slice(), b"+65536\r\n"];
    reads::<u16, _>(&rt, alloc, &edges, "65535; refused; ");
    let edges = [b"$2\r\n+5\r\n".as_slice(), b"$2\r\n-0\r\n"];
    reads::<u32, _>(&rt, alloc, &edges, "5; refused; ");
    let edges = [b"$20\r\n18446744073709551615\r\n".as_slice(), b":-1\r\n"];
    reads::<u64, _>(&rt, alloc, &edges, "18446744073709551615; refused; ");
    let edges = [b":7\r\n".as_slice(), b"$0\r\n\r\n"];
    reads::<usize, _>(&rt, alloc, &edges, "7; refused; ");
    let edges = [b":-128\r\n".as_slice(), b":128\r\n"];
    reads::<i8, _>(&rt, alloc, &edges, "-128; refused; ");
    let edges = [b"$2\r\n-0\r\n".as_slice(), b"+-32769\r\n"];
    reads::<i16, _>(&rt, alloc, &edges, "0; refused; ");
    let edges = [b"+-2147483648\r\n".as_slice(), b"$2\r\n 5\r\n"];
    reads::<i32, _>(&rt, alloc, &edges, "-2147483648; refused; ");
}

const TEXTS: &[&[u8]] = &[
    b"$1\r\na\r\n",
    b"+a\r\n",
    b"=5\r\ntxt:a\r\n",
    b"+OK\r\n",
    b":-12\r\n",
    b"|1\r\n+k\r\n+v\r\n|1\r\n+k\r\n+v\r\n+a\r\n",
    b"$1\r\n\xff\r\n",
    b"_\r\n",
    b"#t\r\n",
    b",1\r\n",
    b"(1\r\n",
    b"-ERR x\r\n",
    b"*0\r\n",
];

#[test]
fn texts(rt: HostRuntime) {
    let expected =
        "\"a\"; \"a\"; \"a\"; \"OK\"; \"-12\"; \"a\"; refused; refused; refused; refused; refused; refused; refused; ";
    reads::<String, _>(&rt, rt.alloc(), TEXTS, expected);
}

const LISTS: &[&[u8]] = &[
    b"*2\r\n:1\r\n$1\r\n2\r\n",
    b"~1\r\n:1\r\n",
    b"$1\r\n7\r\n",
    b"_\r\n",
    b":1\r\n",
    b"+7\r\n",
    b"*2\r\n:1\r\n+x\r\n",
    b">1\r\n+a\r\n",
    b"-ERR x\r\n",
    b"$1\r\nx\r\n",
];

#[test]
fn lists(rt: HostRuntime) {
    let alloc = rt.alloc();
    let expected = "[1, 2]; [1]; [7]; []; refused; refused; refused; refused; refused; refused; ";
    reads::<Vec<i64>, _>(&rt, alloc, LISTS, expected);
    let bytes = [
        b"$2\r\n\xff\x00\r\n".as_slice(),
        b"|1\r\n+k\r\n+v\r\n*1\r\n:1\r\n",
    ];
    reads::<Vec<u8>, _>(&rt, alloc, &bytes, "[255, 0]; [1]; ");
    let pairs = [b"%1\r\n:1\r\n:2\r\n".as_slice(), b"$1\r\n1\r\n"];
    reads::<Vec<(i64, i64)>, _>(&rt, alloc, &pairs, "[(1, 2)]; refused; ");
    let maps = "[Map([(SimpleString(\"a\"), Int(1))]), Map([(SimpleString(\"b\"), Int(2))])]; ";
    reads::<Vec<Value>, _>(&rt, alloc, &[b"%2\r\n+a\r\n:1\r\n+b\r\n:2\r\n"], maps);
}

/// A list of any type but `u8` has a bulk as its one item.
#[test]
fn bulks_alone(rt: HostRuntime) {
    let alloc = rt.alloc();
    let bulk = [b"$1\r\n1\r\n".as_slice()];
    reads::<Vec<bool>, _>(&rt, alloc, &bulk, "[true]; ");
    reads::<Vec<String>, _>(&rt, alloc, &bulk, "[\"1\"]; ");
    reads::<Vec<Option<u8>>, _>(&rt, alloc, &bulk, "[Some(1)]; ");
    reads::<Vec<()>, _>(&rt, alloc, &bulk, "[()]; ");
    reads::<Vec<Value>, _>(&rt, alloc, &bulk, "[BulkString([49])]; ");
    reads::<Vec<Vec<u8>>, _>(&rt, alloc, &bulk, "[[49]]; ");
    reads::<Vec<Fields>, _>(&rt, alloc, &bulk, "refused; ");
}

type Fields = IndexMap<String, i64>;

const FIELDS: &[&[u8]] = &[
    b"*4\r\n$1\r\na\r\n:1\r\n$1\r\na\r\n:2\r\n",
    b"%3\r\n+b\r\n:1\r\n+a\r\n:2\r\n+b\r\n:3\r\n",
    b"|1\r\n+k\r\n+v\r\n%1\r\n+a\r\n$1\r\n1\r\n",
    b"_\r\n",
    b"*0\r\n",
    b"*3\r\n+a\r\n:1\r\n+b\r\n",
    b"%1\r\n+a\r\n+x\r\n",
    b"%2\r\n+a\r\n+x\r\n+a\r\n:1\r\n",
    b"~2\r\n+a\r\n:1\r\n",
    b"$1\r\na\r\n",
    b"-ERR x\r\n",
];

#[test]
fn fields(rt: HostRuntime) {
    let alloc = rt.alloc();
    let expected =
        "{\"a\": 2}; {\"b\": 3, \"a\": 2}; {\"a\": 1}; {}; {}; refused; refused; refused; refused; refused; refused; ";
    reads::<Fields, _>(&rt, alloc, FIELDS, expected);
    let bytes = [b"%2\r\n$1\r\n\xff\r\n#t\r\n$1\r\n\xff\r\n#f\r\n".as_slice()];
    reads::<IndexMap<Vec<u8>, bool>, _>(&rt, alloc, &bytes, "{[255]: false}; ");
}

const PAIRS: &[&[u8]] = &[
    b"*2\r\n:1\r\n:2\r\n",
    b"%1\r\n$1\r\n1\r\n:2\r\n",
    b"*2\r\n|1\r\n+k\r\n+v\r\n:1\r\n:2\r\n",
    b"|1\r\n+k\r\n+v\r\n*2\r\n:1\r\n:2\r\n",
    b"*1\r\n:1\r\n",
    b"*3\r\n:1\r\n:2\r\n:3\r\n",
    b"%2\r\n:1\r\n:2\r\n:3\r\n:4\r\n",
    b"~2\r\n:1\r\n:2\r\n",
    b"_\r\n",
];

#[test]
fn tuples(rt: HostRuntime) {
    let alloc = rt.alloc();
    let expected = "(1, 2); (1, 2); (1, 2); refused; refused; refused; refused; refused; refused; ";
    reads::<(i64, i64), _>(&rt, alloc, PAIRS, expected);
    let three = [b"*3\r\n:1\r\n:2\r\n_\r\n".as_slice(), b"*2\r\n:1\r\n:2\r\n"];
    reads::<(i64, i64, Option<i64>), _>(&rt, alloc, &three, "(1, 2, None); refused; ");
    let four = [
        b"*4\r\n:1\r\n:2\r\n:3\r\n:4\r\n".as_slice(),
        b"*4\r\n:1\r\n:2\r\n:3\r\n+x\r\n",
    ];
    reads::<(i64, i64, i64, i64), _>(&rt, alloc, &four, "(1, 2, 3, 4); refused; ");
}

const ANY: &[&[u8]] = &[b"|1\r\n+k\r\n+v\r\n,1.5\r\n", b"-ERR x\r\n", b"(12\r\n"];

#[test]
fn any_reply(rt: HostRuntime) {
    let alloc = rt.alloc();
    reads::<(), _>(&rt, alloc, ANY, "(); (); (); ");
    let values =
        "Attribute { inner: Double(\"1.5\"), attributes: [(SimpleString(\"k\"), SimpleString(\"v\"))] }; ServerError(ServerError { code: \"ERR\", detail: Some(\"x\") }); BigNumber([49, 50]); ";
    reads::<Value, _>(&rt, alloc, ANY, values);
    let some = [
        b"_\r\n".as_slice(),
        b"|1\r\n+k\r\n+v\r\n_\r\n",
        b":7\r\n",
        b"+x\r\n",
    ];
    reads::<Option<i64>, _>(&rt, alloc, &some, "None; None; Some(7); refused; ");
    let pair = [b"|1\r\n+k\r\n+v\r\n*2\r\n:1\r\n:2\r\n".as_slice()];
    reads::<Option<(i64, i64)>, _>(&rt, alloc, &pair, "Some((1, 2)); ");
}
