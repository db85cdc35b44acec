//! Values that a parser reads from a device.
use resp_core::Parser;
use resp_link::MemoryReader;
use std::alloc::AllocError;
use std::test::*;

/// Adds the value or the refusal.
fn read(
    parser: &mut Parser,
    reader: &mut MemoryReader,
    told: &mut String,
) -> Result<(), AllocError> {
    let outcome = parser.parse_value(reader);
    let text = format!(in *told.allocator(); "{outcome:?}; ")?;
    told.push_str(text.as_str())
}

/// The device gives a byte a read, refuses the eighth, and then has an end.
#[test]
fn a_refused_read_loses_no_bytes(rt: HostRuntime) -> Result<(), Fail> {
    let bytes = Vec::from_slice(rt.alloc(), b":7\r\n:123\r\n")?;
    let mut reader = MemoryReader::new(bytes, 1, 8);
    let mut parser = Parser::new(rt.alloc());
    let mut told = String::new(rt.alloc());
    for _ in 0..4 {
        read(&mut parser, &mut reader, &mut told)?;
    }
    let wanted =
        "Ok(Int(7)); Err(RedisError { reason: By(Io) }); Ok(Int(123)); Err(RedisError { reason: By(Io) }); ";
    assert_eq!(rt; told.as_str(), wanted);
    Ok(())
}
