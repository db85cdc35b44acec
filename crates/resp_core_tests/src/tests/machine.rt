//! Each byte is taken up once, however the bytes are cut, and those behind a value are left.
use crate::tests::texts::taken;
use resp_core::*;
use std::alloc::{AllocError, Global};
use std::process::Abort;
use std::test::*;

const BYTES: &[u8] = b"*2\r\n$3\r\nabc\r\n:1\r\n";

/// The piece is taken up whole, and ends a value or none.
fn takes_up<R: Abort>(
    rt: &R,
    parser: &mut Parser,
    piece: &[u8],
    wanted: u8,
) -> Result<(), AllocError> {
    parser.feed(piece)?;
    assert_eq!(rt; taken(parser), wanted);
    assert_eq!(rt; parser.unscanned(), 0);
    Ok(())
}

fn is_cut<R: Abort>(rt: &R, alloc: Global, front: &[u8], back: &[u8]) -> Result<(), AllocError> {
    let mut parser = Parser::new(alloc);
    takes_up(rt, &mut parser, front, 0)?;
    takes_up(rt, &mut parser, back, 1)?;
    assert_eq!(rt; parser.looked(), 17);
    Ok(())
}

#[test]
fn takes_cut_bytes_up_once(rt: HostRuntime) -> Result<(), Fail> {
    for cut in 0..BYTES.len() {
        is_cut(&rt, rt.alloc(), &BYTES[..cut], &BYTES[cut..])?;
    }
    Ok(())
}

#[test]
fn leaves_bytes_behind_a_value(rt: HostRuntime) -> Result<(), Fail> {
    let mut parser = Parser::new(rt.alloc());
    for byte in BYTES {
        assert_eq!(rt; taken(&mut parser), 0);
        parser.feed(&[*byte])?;
    }
    parser.feed(b"+x")?;
    assert_eq!(rt; taken(&mut parser), 1);
    assert_eq!(rt; parser.unscanned(), 2);
    assert_eq!(rt; parser.looked(), 17);
    Ok(())
}

#[test]
fn no_values_bytes_begin_anothers(_rt: HostRuntime) -> Result<(), Fail> {
    prefix_free();
    Ok(())
}
