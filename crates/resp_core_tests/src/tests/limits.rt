//! Parsers with a limit of levels of their own.
use crate::tests::texts::taken;
use resp_core::*;
use std::alloc::Global;
use std::test::*;

/// What a parser of this limit makes of a number in so many arrays: 1 where it hands out a value, or else
/// the number of the refusal, also of the limit.
fn outcome(alloc: Global, limit: u16, arrays: usize) -> u8 {
    match read(alloc, limit, arrays) {
        Ok(outcome) => outcome,
        Err(e) => e.number(),
    }
}

fn read(alloc: Global, limit: u16, arrays: usize) -> Result<u8, RedisError> {
    let mut parser = Parser::with_level_limit(alloc, limit)?;
    for _ in 0..arrays {
        parser.feed(b"*1\r\n")?;
    }
    parser.feed(b":1\r\n")?;
    Ok(taken(&mut parser))
}

#[test]
fn limits(rt: HostRuntime) {
    let rows = [
        (1, 0, 1),
        (1, 1, 15),
        (2, 1, 1),
        (2, 2, 15),
        (512, 511, 1),
        (512, 512, 15),
        (0, 0, 19),
        (513, 0, 19),
        (65535, 0, 19),
    ];
    for (limit, arrays, wanted) in rows {
        assert_eq!(rt; outcome(rt.alloc(), limit, arrays), wanted);
    }
}

#[test]
fn a_limit_is_told(rt: HostRuntime) -> Result<(), Fail> {
    let alloc = rt.alloc();
    assert_eq!(rt; MOST_LEVELS, 512);
    assert_eq!(rt; Parser::new(alloc).level_limit(), LEVELS);
    assert_eq!(rt; Parser::with_level_limit(alloc, 512)?.level_limit(), 512);
    Ok(())
}
