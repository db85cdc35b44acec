//! One request for memory is refused, whichever: `tools/refused-tests` plays each test once for each.
//!
//! A test prints a line `refused CALL` where a call is refused, sees what then stands, and goes on;
//! no further call may be refused.

use crate::tests::join::{IN_ORDER, ROW_OF_B, ROWS_OF_A, of_three};
use crate::tests::writing::text;
use refusals_for_tests::{again, shown};
use resp_args::ToRedisArgs;
use resp_core::ErrorKind;
use std::alloc::Global;
use std::io::Print;
use std::process::Abort;
use std::test::Fail;
use stream_commands::{StreamClaimOptions, StreamReadReply};

fn is_in_order<R: Abort + Print>(
    rt: &R,
    alloc: Global,
    record: &StreamReadReply,
) -> Result<(), Fail> {
    assert_eq!(rt; shown(rt, alloc, record)?.as_str(), IN_ORDER);
    Ok(())
}

#[test]
fn joined_replies(rt: HostRuntime) -> Result<(), Fail> {
    match of_three(rt.alloc(), ROWS_OF_A, ROW_OF_B) {
        Ok(record) => is_in_order(&rt, rt.alloc(), &record),
        Err(e) => {
            println!(rt; "refused join_read_replies")?;
            assert!(rt; e.kind() == ErrorKind::Memory);
            let record = of_three(rt.alloc(), ROWS_OF_A, ROW_OF_B)?;
            is_in_order(&rt, rt.alloc(), &record)
        }
    }
}

const WORDS: [&str; 10] = [
    "IDLE",
    "1",
    "TIME",
    "2",
    "RETRYCOUNT",
    "3",
    "FORCE",
    "JUSTID",
    "LASTID",
    "4-0",
];

/// The arguments are the words up to one of them.
fn are_words<R: Abort>(rt: &R, args: &[Vec<u8>]) {
    for (place, arg) in args.iter().enumerate() {
        match WORDS.get(place) {
            Some(word) => assert_eq!(rt; arg.as_slice(), word.as_bytes()),
            None => assert!(rt; false, "there are more"),
        }
    }
}

/// Behind a refused writing some first of the arguments stand.
fn writes_words<R: Abort + Print>(
    rt: &R,
    alloc: Global,
    options: &StreamClaimOptions,
) -> Result<(), Fail> {
    let mut args: Vec<Vec<u8>> = Vec::new(alloc);
    if options.write_redis_args(&mut args).is_err() {
        println!(rt; "refused write_redis_args")?;
        are_words(rt, &args);
        assert!(rt; args.len() < 10);
        args = Vec::new(alloc);
        options.write_redis_args(&mut args)?;
    }
    are_words(rt, &args);
    assert_eq!(rt; args.len(), 10);
    Ok(())
}

#[test]
fn claim_options(rt: HostRuntime) -> Result<(), Fail> {
    let alloc = rt.alloc();
    let last_id = again(&rt, "text", || text(alloc, "4-0"))?;
    let options = StreamClaimOptions::empty()
        .with_lastid(last_id)
        .with_justid()
        .with_force()
        .retry(3)
        .time(2)
        .idle(1);
    writes_words(&rt, alloc, &options)
}
