//! Known replies, read whole and cut in two at each place.
use crate::tests::texts::shown;
use resp_core::*;
use std::alloc::{AllocError, Global};
use std::process::Abort;
use std::test::*;

fn add(told: &mut String, value: Value) -> Result<u8, AllocError> {
    let text = shown(*told.allocator(), value)?;
    told.push_str(text.as_str())?;
    told.push_str("\n")?;
    Ok(1)
}

/// Adds the next value and answers 1, or answers 0 or the number of a refusal.
fn take(parser: &mut Parser, told: &mut String) -> Result<u8, AllocError> {
    match parser.take_value() {
        Ok(Some(value)) => add(told, value),
        Ok(None) => Ok(0),
        Err(e) => Ok(e.number()),
    }
}

fn take_all(parser: &mut Parser, told: &mut String) -> Result<u8, AllocError> {
    for _ in 0..4 {
        let end = take(parser, told)?;
        if end != 1 {
            return Ok(end);
        }
    }
    Ok(1)
}

/// The values, a line each, and then 0 or the number of a refusal.
fn read(alloc: Global, front: &[u8], back: &[u8]) -> Result<String, AllocError> {
    let mut parser = Parser::new(alloc);
    let mut told = String::new(alloc);
    parser.feed(front)?;
    take_all(&mut parser, &mut told)?;
    parser.feed(back)?;
    let end = take_all(&mut parser, &mut told)?;
    format!(in alloc; "{told}{end}")
}

/// The same of bytes that come one at a time.
fn read_by_bytes(alloc: Global, bytes: &[u8]) -> Result<String, AllocError> {
    let mut parser = Parser::new(alloc);
    let mut told = String::new(alloc);
    let mut end = 0;
    for byte in bytes {
        parser.feed(&[*byte])?;
        end = take_all(&mut parser, &mut told)?;
    }
    format!(in alloc; "{told}{end}")
}

/// The bytes are read so, wherever they are cut, and one at a time.
fn gives<R: Abort>(rt: &R, alloc: Global, bytes: &[u8], wanted: &str) -> Result<(), AllocError> {
    for cut in 0..=bytes.len() {
        let told = read(alloc, &bytes[..cut], &bytes[cut..])?;
        assert_eq!(rt; told.as_str(), wanted);
    }
    let told = read_by_bytes(alloc, bytes)?;
    assert_eq!(rt; told.as_str(), wanted);
    Ok(())
}

const KNOWN: &[(&[u8], &str)] = &[
    (b"~2\r\n:1\r\n#t\r\n", "Set([Int(1), Boolean(true)])\n0"),
    (
        b"|1\r\n+k\r\n:1\r\n$1\r\nv\r\n",
        "Attribute { inner: BulkString([118]), attributes: [(SimpleString(\"k\"), Int(1))] }\n0",
    ),
    (
        b">0\r\n:1\r\n",
        "Push { kind: Other(\"\"), items: [] }\nInt(1)\n0",
    ),
    (
        b">2\r\n+invalidate\r\n*1\r\n$1\r\na\r\n*1\r\n$1\r\n1\r\n*1\r\n$-1\r\n",
        "Push { kind: Invalidate, items: [Array([BulkString([97])])] }\nArray([BulkString([49])])\nArray([Nil])\n0",
    ),
    (b">1\r\n+OK\r\n", "15"),
    (
        b"*3\r\n+OK\r\n-LOADING server is loading\r\n+OK\r\n",
        "Array([Okay, ServerError(ServerError { code: \"LOADING\", detail: Some(\"server is loading\") }), Okay])\n0",
    ),
    (
        b"%1\r\n+a\r\n_\r\n+b\r\n",
        "Map([(SimpleString(\"a\"), Nil)])\nSimpleString(\"b\")\n0",
    ),
    (
        b"=5\r\ntxt:a\r\n",
        "VerbatimString { format: Text, text: \"a\" }\n0",
    ),
    (b",+1e5 \r\n", "Double(\"+1e5\")\n0"),
    (b"(-12\r\n", "BigNumber([45, 49, 50])\n0"),
    (b",.\r\n", "15"),
    (
        b"!9\r\nMOVED 1 x\r\n",
        "ServerError(ServerError { code: \"MOVED\", detail: Some(\"1 x\") })\n0",
    ),
    (b"*-7\r\n", "Nil\n0"),
    (b"%-1\r\n", "15"),
    (b"_x\r\n", "Nil\n0"),
    (b"#T\r\n", "15"),
    (b"$?\r\n", "15"),
    (b":1\n\r\n", "Int(1)\n0"),
    (b"$-1\r\n", "Nil\n0"),
    (b":7\r\n$2\r\nab\rx:8\r\n", "Int(7)\n15"),
    (b"*9223372036854775807\r\n:1\r\n", "0"),
    (b":1\n", "0"),
    (b"$-1\r", "0"),
    (b"$2\r\nab\r", "0"),
    (b"%9223372036854775807\r\n:1\r\n", "0"),
    (b"|9223372036854775807\r\n:1\r\n", "0"),
    (b"$9223372036854775807\r\n:1\r\n", "0"),
];

#[test]
fn known_replies(rt: HostRuntime) -> Result<(), Fail> {
    for (bytes, wanted) in KNOWN {
        gives(&rt, rt.alloc(), bytes, wanted)?;
    }
    Ok(())
}

/// A number in arrays, each in another; so many levels in all.
fn nested(alloc: Global, levels: usize) -> Result<Vec<u8>, AllocError> {
    let mut bytes = Vec::new(alloc);
    for _ in 1..levels {
        bytes.extend_from_slice(b"*1\r\n")?;
    }
    bytes.extend_from_slice(b":1\r\n")?;
    Ok(bytes)
}

fn nested_text(alloc: Global, levels: usize) -> Result<String, AllocError> {
    let mut text = String::new(alloc);
    for _ in 1..levels {
        text.push_str("Array([")?;
    }
    text.push_str("Int(1)")?;
    for _ in 1..levels {
        text.push_str("])")?;
    }
    text.push_str("\n0")?;
    Ok(text)
}

#[test]
fn levels(rt: HostRuntime) -> Result<(), Fail> {
    let alloc = rt.alloc();
    assert_eq!(rt; LEVELS, 100);
    let deepest = nested(alloc, 100)?;
    gives(&rt, alloc, &deepest, nested_text(alloc, 100)?.as_str())?;
    let too_deep = nested(alloc, 101)?;
    gives(&rt, alloc, &too_deep, "15")?;
    Ok(())
}
