//! One request for memory is refused, whichever: `tools/refused-tests` plays each test once for each.
//!
//! A test prints a line `refused CALL` where a call is refused, sees what then stands, and goes on;
//! no further call may be refused.
use indexmap::IndexMap;
use refusals_for_tests::{again, shown};
use resp_args::{Cmd, from_redis_value, from_redis_value_ref};
use resp_core::{ParsingError, RedisError, Value, parse_redis_value};
use std::alloc::Global;
use std::io::Print;
use std::process::Abort;
use std::test::Fail;

const WORDS: [&str; 9] = [
    "one", "two", "three", "four", "five", "six", "seven", "eight", "nine",
];

const PACKED: &[u8] =
    b"x*10\r\n$3\r\none\r\n$3\r\ntwo\r\n$5\r\nthree\r\n$4\r\nfour\r\n$4\r\nfive\r\n$3\r\nsix\r\n$5\r\nseven\r\n$5\r\neight\r\n$4\r\nnine\r\n$2\r\n10\r\n";

/// The command has this many of the words, in order, and no more.
fn has_words<R: Abort>(rt: &R, command: &Cmd, count: usize) -> Result<(), Fail> {
    let args = command.wire_args()?;
    assert_eq!(rt; args.len(), count);
    for (place, arg) in args.iter().enumerate() {
        match WORDS.get(place) {
            Some(word) => assert_eq!(rt; arg.as_slice(), word.as_bytes()),
            None => assert!(rt; false, "there are more"),
        }
    }
    assert!(rt; !command.in_scan_mode());
    Ok(())
}

fn add_words<R: Abort + Print>(rt: &R, command: &mut Cmd) -> Result<(), Fail> {
    for (count, word) in WORDS[..7].iter().enumerate() {
        if command.arg(*word).is_err() {
            println!(rt; "refused arg")?;
            has_words(rt, command, count)?;
            command.arg(*word)?;
        }
    }
    if command.arg((WORDS[7], WORDS[8])).is_err() {
        println!(rt; "refused arg of two")?;
        has_words(rt, command, 7)?;
        command.arg((WORDS[7], WORDS[8]))?;
    }
    if command.cursor_arg(10).is_err() {
        println!(rt; "refused cursor_arg")?;
        has_words(rt, command, 9)?;
        command.cursor_arg(10)?;
    }
    Ok(())
}

/// Behind a byte that stands in the buffer.
fn is_packed<R: Abort + Print>(rt: &R, alloc: Global, command: &Cmd) -> Result<(), Fail> {
    let mut out = Vec::new(alloc);
    again(rt, "push", || out.push(b'x'))?;
    if command.write_packed_command(&mut out).is_err() {
        println!(rt; "refused write_packed_command")?;
        assert_eq!(rt; out.as_slice(), b"x".as_slice());
        command.write_packed_command(&mut out)?;
    }
    assert_eq!(rt; out.as_slice(), PACKED);
    Ok(())
}

#[test]
fn ten_arguments(rt: HostRuntime) -> Result<(), Fail> {
    let mut command = Cmd::new(rt.alloc());
    add_words(&rt, &mut command)?;
    is_packed(&rt, rt.alloc(), &command)?;
    let copy = again(&rt, "clone", || command.clone())?;
    is_packed(&rt, rt.alloc(), &copy)
}

// The text of the second pair is made from a number, which takes memory behind the first.
const NESTED: &[u8] = b"%2\r\n+a\r\n*2\r\n*2\r\n:1\r\n$1\r\nx\r\n%1\r\n:2\r\n:7\r\n+b\r\n_\r\n";

type Nested = IndexMap<String, Vec<(i64, String)>>;

const TEXT: &str = "{\"a\": [(1, \"x\"), (2, \"7\")], \"b\": []}";

fn is_nested<R: Abort + Print>(rt: &R, alloc: Global, fields: &Nested) -> Result<(), Fail> {
    assert_eq!(rt; shown(rt, alloc, fields)?.as_str(), TEXT);
    Ok(())
}

fn nested_reply<R: Print>(rt: &R, alloc: Global) -> Result<Value, Fail> {
    again(rt, "reply", || parse_redis_value(alloc, NESTED))
}

/// The number of a refusal for want of memory.
fn is_starved<R: Abort>(rt: &R, e: ParsingError) {
    assert_eq!(rt; RedisError::from(e).number(), 17);
}

fn converts_owned<R: Abort + Print>(rt: &R, alloc: Global) -> Result<(), Fail> {
    let value = nested_reply(rt, alloc)?;
    match from_redis_value::<Nested>(alloc, value) {
        Ok(fields) => is_nested(rt, alloc, &fields),
        Err(e) => {
            println!(rt; "refused from_redis_value")?;
            is_starved(rt, e);
            let value = nested_reply(rt, alloc)?;
            is_nested(rt, alloc, &from_redis_value(alloc, value)?)
        }
    }
}

fn converts_lent<R: Abort + Print>(rt: &R, alloc: Global) -> Result<(), Fail> {
    let value = nested_reply(rt, alloc)?;
    match from_redis_value_ref::<Nested>(alloc, &value) {
        Ok(fields) => is_nested(rt, alloc, &fields),
        Err(e) => {
            println!(rt; "refused from_redis_value_ref")?;
            is_starved(rt, e);
            is_nested(rt, alloc, &from_redis_value_ref(alloc, &value)?)
        }
    }
}

#[test]
fn nested_conversion(rt: HostRuntime) -> Result<(), Fail> {
    converts_owned(&rt, rt.alloc())?;
    converts_lent(&rt, rt.alloc())
}
