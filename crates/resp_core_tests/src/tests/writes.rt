//! Replies as they are written. The bytes are examples of the Redis serialization protocol specification
//! and of the RESP3 specification, and what these say of other protocols.
use resp_core::*;
use std::alloc::Global;
use std::process::Abort;
use std::test::*;

/// What is written of a value behind a byte that stands there.
fn written(alloc: Global, value: &Value, protocol: Protocol) -> Result<Vec<u8>, Fail> {
    let mut out = vec![in alloc; b'?']?;
    value.write(&mut out, protocol)?;
    Ok(out)
}

fn is_written<R: Abort>(
    rt: &R,
    alloc: Global,
    value: &Value,
    protocol: Protocol,
    wanted: &[u8],
) -> Result<(), Fail> {
    let out = written(alloc, value, protocol)?;
    let mut whole = vec![in alloc; b'?']?;
    whole.extend_from_slice(wanted)?;
    assert_eq!(rt; out, whole);
    Ok(())
}

// Replies that are written as they come, in both protocols.
const SAME: &[&[u8]] = &[
    b":1000\r\n",
    b":-5\r\n",
    b"$5\r\nhello\r\n",
    b"$0\r\n\r\n",
    b"*0\r\n",
    b"*2\r\n*3\r\n:1\r\n:2\r\n:3\r\n*2\r\n+Hello\r\n-World\r\n",
    b"+OK\r\n",
    b"+Hello\r\n",
    b"-ERR unknown command 'asdf'\r\n",
];

// Those that RESP3 writes as they come, each with what RESP2 writes.
const PLAINER: &[(&[u8], &[u8])] = &[
    (b"_\r\n", b"$-1\r\n"),
    (
        b"%2\r\n+first\r\n:1\r\n+second\r\n:2\r\n",
        b"*4\r\n+first\r\n:1\r\n+second\r\n:2\r\n",
    ),
    (
        b"|1\r\n+key-popularity\r\n%2\r\n$1\r\na\r\n,0.1923\r\n$1\r\nb\r\n,0.0012\r\n*2\r\n:2039123\r\n:9543892\r\n",
        b"*2\r\n:2039123\r\n:9543892\r\n",
    ),
    (
        b"~5\r\n+orange\r\n+apple\r\n#t\r\n:100\r\n:999\r\n",
        b"*5\r\n+orange\r\n+apple\r\n:1\r\n:100\r\n:999\r\n",
    ),
    (b",1.23\r\n", b"$4\r\n1.23\r\n"),
    (b",-inf\r\n", b"$4\r\n-inf\r\n"),
    (b"#t\r\n", b":1\r\n"),
    (b"#f\r\n", b":0\r\n"),
    (b"=15\r\ntxt:Some string\r\n", b"$11\r\nSome string\r\n"),
    (
        b"(3492890328409238509324850943850943825024385\r\n",
        b"$43\r\n3492890328409238509324850943850943825024385\r\n",
    ),
    (
        b">3\r\n$7\r\nmessage\r\n$6\r\nsecond\r\n$5\r\nHello\r\n",
        b"*3\r\n$7\r\nmessage\r\n$6\r\nsecond\r\n$5\r\nHello\r\n",
    ),
    // An error whose text has the end of a line, as no example has one.
    (b"!10\r\nERR a\r\nb c\r\n", b"-ERR a  b c\r\n"),
];

// Those that neither writes as they come: what RESP2 writes, and RESP3.
const OTHERS: &[(&[u8], &[u8], &[u8])] = &[
    (b"$-1\r\n", b"$-1\r\n", b"_\r\n"),
    (
        b"*3\r\n$5\r\nhello\r\n$-1\r\n$5\r\nworld\r\n",
        b"*3\r\n$5\r\nhello\r\n$-1\r\n$5\r\nworld\r\n",
        b"*3\r\n$5\r\nhello\r\n_\r\n$5\r\nworld\r\n",
    ),
    (
        b"!21\r\nSYNTAX invalid syntax\r\n",
        b"-SYNTAX invalid syntax\r\n",
        b"-SYNTAX invalid syntax\r\n",
    ),
];

fn is_reply_written<R: Abort>(
    rt: &R,
    alloc: Global,
    bytes: &[u8],
    two: &[u8],
    three: &[u8],
) -> Result<(), Fail> {
    let value = parse_redis_value(alloc, bytes)?;
    is_written(rt, alloc, &value, Protocol::Resp2, two)?;
    is_written(rt, alloc, &value, Protocol::Resp3, three)?;
    assert!(rt; parse_redis_value(alloc, three)? == value);
    Ok(())
}

#[test]
fn replies(rt: HostRuntime) -> Result<(), Fail> {
    let alloc = rt.alloc();
    for bytes in SAME {
        is_reply_written(&rt, alloc, bytes, bytes, bytes)?;
    }
    for (bytes, two) in PLAINER {
        is_reply_written(&rt, alloc, bytes, two, bytes)?;
    }
    for (bytes, two, three) in OTHERS {
        is_reply_written(&rt, alloc, bytes, two, three)?;
    }
    Ok(())
}

/// Texts that a type's line can not hold go as bulk strings, in RESP3 as in RESP2.
#[test]
fn what_a_line_can_not_hold(rt: HostRuntime) -> Result<(), Fail> {
    let alloc = rt.alloc();
    let simple = Value::SimpleString(format!(in alloc; "a\r\nb")?);
    let double = Value::Double(format!(in alloc; "one")?);
    let big = Value::BigNumber(vec![in alloc; 255, b'1']?);
    for protocol in [Protocol::Resp2, Protocol::Resp3] {
        is_written(&rt, alloc, &simple, protocol, b"$4\r\na\r\nb\r\n")?;
        is_written(&rt, alloc, &double, protocol, b"$3\r\none\r\n")?;
        is_written(&rt, alloc, &big, protocol, b"$2\r\n\xff1\r\n")?;
    }
    Ok(())
}

/// A number in so many arrays.
fn nested(alloc: Global, arrays: usize) -> Result<Value, Fail> {
    let mut value = Value::Int(1);
    for _ in 0..arrays {
        value = Value::Array(vec![in alloc; value]?);
    }
    Ok(value)
}

#[test]
fn levels(rt: HostRuntime) -> Result<(), Fail> {
    let alloc = rt.alloc();
    for protocol in [Protocol::Resp2, Protocol::Resp3] {
        let deepest = written(alloc, &nested(alloc, 511)?, protocol)?;
        assert_eq!(rt; deepest.len(), 1 + 511 * 4 + 4);
        let mut out = vec![in alloc; b'?']?;
        let outcome = nested(alloc, 512)?.write(&mut out, protocol);
        assert_eq!(rt; outcome.err(), Some(WriteError::TooLarge));
        assert_eq!(rt; out.as_slice(), b"?".as_slice());
    }
    Ok(())
}

#[test]
fn texts_of_refusals(rt: HostRuntime) {
    let large = "the reply is too large to be written";
    crate::tests::texts::prints(&rt, rt.alloc(), &WriteError::TooLarge, large);
    crate::tests::texts::prints(&rt, rt.alloc(), &WriteError::Memory, "memory was refused");
}
