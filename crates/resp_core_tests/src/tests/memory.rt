//! One request for memory is refused, whichever: `tools/refused-tests` plays each test once for each.
//!
//! A test prints a line `refused CALL` where a call is refused, sees what then stands, and goes on;
//! no further call may be refused.
use crate::tests::texts::taken;
use refusals_for_tests::{again, shown};
use resp_core::*;
use std::alloc::Global;
use std::io::Print;
use std::process::Abort;
use std::test::*;

const BYTES: &[u8] =
    b"*3\r\n%1\r\n$1\r\nk\r\n~1\r\n+v\r\n|1\r\n+a\r\n:1\r\n=5\r\ntxt:t\r\n>2\r\n+news\r\n!5\r\nERR x\r\n";

const TEXT: &str =
    "Array([Map([(BulkString([107]), Set([SimpleString(\"v\")]))]), Attribute { inner: VerbatimString { format: Text, text: \"t\" }, attributes: [(SimpleString(\"a\"), Int(1))] }, Push { kind: Other(\"news\"), items: [ServerError(ServerError { code: \"ERR\", detail: Some(\"x\") })] }])";

/// A refused piece is left out whole.
fn feed_whole<R: Abort + Print>(rt: &R, parser: &mut Parser) -> Result<(), Fail> {
    for piece in BYTES.chunks(40) {
        if parser.feed(piece).is_err() {
            println!(rt; "refused feed")?;
            assert_eq!(rt; taken(parser), 0);
            parser.feed(piece)?;
        }
    }
    Ok(())
}

/// Memory was refused: it says so for good, though there is memory again, and another reader reads.
fn is_starved<R: Abort + Print>(rt: &R, alloc: Global, parser: &mut Parser) -> Result<Value, Fail> {
    println!(rt; "refused take_value")?;
    for piece in [b":1\r\n".as_slice(), b"?"] {
        parser.feed(piece)?;
        assert_eq!(rt; taken(parser), 17);
    }
    Ok(parse_redis_value(alloc, BYTES)?)
}

fn reply<R: Abort + Print>(rt: &R, alloc: Global) -> Result<Value, Fail> {
    let mut parser = Parser::new(alloc);
    feed_whole(rt, &mut parser)?;
    match parser.take_value() {
        Ok(Some(value)) => Ok(value),
        Ok(None) => Err("no value".into()),
        Err(e) => {
            assert_eq!(rt; e.number(), 17);
            is_starved(rt, alloc, &mut parser)
        }
    }
}

const IN_RESP2: &[u8] =
    b"?*3\r\n*2\r\n$1\r\nk\r\n*1\r\n+v\r\n$1\r\nt\r\n*2\r\n$4\r\nnews\r\n-ERR x\r\n";

const IN_RESP3: &[u8] =
    b"?*3\r\n%1\r\n$1\r\nk\r\n~1\r\n+v\r\n|1\r\n+a\r\n:1\r\n=5\r\ntxt:t\r\n>2\r\n$4\r\nnews\r\n-ERR x\r\n";

/// What is written of a reply. Where it is not written the bytes are as they were, and it can be written behind them.
fn written<R: Abort + Print>(
    rt: &R,
    alloc: Global,
    value: &Value,
    protocol: Protocol,
) -> Result<Vec<u8>, Fail> {
    let mut out = again(rt, "from_slice", || Vec::from_slice(alloc, b"?"))?;
    if let Err(e) = value.write(&mut out, protocol) {
        println!(rt; "refused write")?;
        assert_eq!(rt; e, WriteError::Memory);
        assert_eq!(rt; out.as_slice(), b"?".as_slice());
        value.write(&mut out, protocol)?;
    }
    Ok(out)
}

/// The buffer grows again and again, and each time may be refused.
#[test]
fn written_reply(rt: HostRuntime) -> Result<(), Fail> {
    let value = reply(&rt, rt.alloc())?;
    for (protocol, wanted) in [(Protocol::Resp2, IN_RESP2), (Protocol::Resp3, IN_RESP3)] {
        let out = written(&rt, rt.alloc(), &value, protocol)?;
        assert_eq!(rt; out.as_slice(), wanted);
    }
    Ok(())
}

#[test]
fn nested_reply(rt: HostRuntime) -> Result<(), Fail> {
    let value = reply(&rt, rt.alloc())?;
    assert_eq!(rt; shown(&rt, rt.alloc(), &value)?.as_str(), TEXT);
    let copy = again(&rt, "clone", || value.clone())?;
    assert!(rt; copy == value);
    Ok(())
}
