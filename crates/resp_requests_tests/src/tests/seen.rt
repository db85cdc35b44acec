//! What a server of Redis 7.0.15 was seen to answer, over a socket of its own for each row: the bytes that
//! were sent, and all that came back. Where nothing came back the server waits for more. It closed the
//! connection behind each protocol error.
use crate::tests::answers::answers_to;
use resp_requests::Limits;
use std::alloc::Global;
use std::process::Abort;
use std::test::*;

// Refusals that many rows have.
pub(crate) const BAD_COUNT: &[u8] = b"-ERR Protocol error: invalid multibulk length\r\n";

pub(crate) const BAD_LENGTH: &[u8] = b"-ERR Protocol error: invalid bulk length\r\n";

const OPEN_QUOTE: &[u8] = b"-ERR Protocol error: unbalanced quotes in request\r\n";

// Beginnings of refusals.
const NO_DOLLAR: &[u8] = b"-ERR Protocol error: expected '$', got '";

const UNKNOWN: &[u8] = b"-ERR unknown command 'X', with args beginning with: ";

// Arrays of bulks, and what stands between them.
const ARRAYS: [(&[u8], &[u8]); 19] = [
    (b"*1\r\n$4\r\nPING\r\n", b"+PONG\r\n"),
    (b"*2\r\n$4\r\nECHO\r\n$1\r\na\r\n", b"$1\r\na\r\n"),
    (b"*2\r\n$4\r\nECHO\r\n$0\r\n\r\n", b"$0\r\n\r\n"),
    (
        b"*3\r\n$1\r\nX\r\n$1\r\n \r\n$3\r\n\"a\"\r\n",
        b"-ERR unknown command 'X', with args beginning with: ' ' '\"a\"' \r\n",
    ),
    (b"*2\r\n$4\r\nECHO\r\n$4\r\n\r\n*1\r\n", b"$4\r\n\r\n*1\r\n"),
    (b"*0\r\n*1\r\n$4\r\nPING\r\n", b"+PONG\r\n"),
    (b"*-1\r\nPING\r\n", b"+PONG\r\n"),
    (b"*-9223372036854775808\r\nPING\r\n", b"+PONG\r\n"),
    (b"*1\r\n$4\r\nPING\r\n*1\r\n", b"+PONG\r\n"),
    (b"*2\r\n$4\r\nECHO\r\n$5\r\nab", b""),
    (b"*1\r", b""),
    (b"*x\r", b""),
    (b"*1\n$4\nPING\n", b""),
    (b"*1\r\n$4\r\nPINGxyPING\r\n", b"+PONG\r\n+PONG\r\n"),
    (b"*1\rx$4\rxPING\r\n", b"+PONG\r\n"),
    (b"*1\r\nPING", b""),
    (b"*2147483647\r\n", b""),
    (b"*1\r\n$536870912\r\n", b""),
    (
        b"PING\r\n*1\r\n$4\r\nPING\r\nPING\r\n*x\r\nPING\r\n",
        b"+PONG\r\n+PONG\r\n+PONG\r\n-ERR Protocol error: invalid multibulk length\r\n",
    ),
];

// Counts and lengths that are none.
const COUNTS: [(&[u8], &[u8]); 23] = [
    (b"*\r\n", BAD_COUNT),
    (b"*x\r\n", BAD_COUNT),
    (b"* 1\r\n", BAD_COUNT),
    (b"*1 \r\n", BAD_COUNT),
    (b"*+1\r\n", BAD_COUNT),
    (b"*-0\r\n", BAD_COUNT),
    (b"*-\r\n", BAD_COUNT),
    (b"*00\r\n", BAD_COUNT),
    (b"*01\r\n", BAD_COUNT),
    (b"*-01\r\n", BAD_COUNT),
    (b"*2147483648\r\n", BAD_COUNT),
    (b"*-9223372036854775809\r\n", BAD_COUNT),
    (b"*99999999999999999999\r\n", BAD_COUNT),
    (b"*-99999999999999999999\r\n", BAD_COUNT),
    (b"*1\r\n$\r\n", BAD_LENGTH),
    (b"*1\r\n$-1\r\n", BAD_LENGTH),
    (b"*1\r\n$x\r\n", BAD_LENGTH),
    (b"*1\r\n$04\r\nPING\r\n", BAD_LENGTH),
    (b"*1\r\n$ 4\r\n", BAD_LENGTH),
    (b"*1\r\n$+4\r\n", BAD_LENGTH),
    (b"*1\r\n$536870913\r\n", BAD_LENGTH),
    (b"*1\r\n$9223372036854775808\r\n", BAD_LENGTH),
    (b"*1\r\n$99999999999999999999\r\n", BAD_LENGTH),
];

// What stands in the place of an argument, and the byte of it that is told.
const NO_ARGUMENTS: [(&[u8], &[u8]); 7] = [
    (b"*1\r\nPING\r\n", b"P"),
    (b"*1\r\n:1\r\n", b":"),
    (b"*1\r\n\r\n", b" "),
    (b"*1\r\n*1\r\n", b"*"),
    (b"*1\r\n\xff\r\n", b"\xff"),
    (b"*1\r\n\n\r\n", b" "),
    (b"*2\r\n$4\r\nECHO\r\na\r\n", b"a"),
];

// Inline requests.
const WORDS: [(&[u8], &[u8]); 6] = [
    (b"PING\r\n", b"+PONG\r\n"),
    (b"PING\n", b"+PONG\r\n"),
    (b"\r\n\n  \r\n\tPING \r\n", b"+PONG\r\n"),
    (b"PING", b""),
    (b"PING\r", b""),
    (
        b"$4\r\nPING\r\n",
        b"-ERR unknown command '$4', with args beginning with: \r\n+PONG\r\n",
    ),
];

// Commands that are not known, without arguments, and the names that are told.
const NAMES: [(&[u8], &[u8]); 3] = [
    (b"X\x0ba\r\n", b"X\x0ba"),
    (b"+PING\r\n", b"+PING"),
    (b" *1\r\n", b"*1"),
];

// Arguments of a command that is not known, and how they are told.
const ARGUMENTS: [(&[u8], &[u8]); 8] = [
    (b"X a  b\tc\r\n", b"'a' 'b' 'c' "),
    (b"X a\rb\r\n", b"'a' 'b' "),
    (b"X a\r\r\n", b"'a' "),
    (b"X \x0b\x0ca\r\n", b"'a' "),
    (b"X a\x0cb\r\n", b"'a\x0cb' "),
    (b"X \xff\r\n", b"'\xff' "),
    (b"X a\\nb\r\n", b"'a\\nb' "),
    (b"X \\\" b\"\r\n", b"'\\ b' "),
];

// Quotes in inline requests.
const QUOTES: [(&[u8], &[u8]); 15] = [
    (b"\"ECHO\" \"a\"\n", b"$1\r\na\r\n"),
    (
        b"ECHO \"\\x41\\xaF\\n\\r\\t\\b\\a\\q\\\\\\\"\"\r\n",
        b"$10\r\nA\xaf\n\r\t\x08\x07q\\\"\r\n",
    ),
    (b"X \"a", b""),
    (b"X \"a\r\n", OPEN_QUOTE),
    (b"X 'a\r\n", OPEN_QUOTE),
    (b"X \"a\"b\r\n", OPEN_QUOTE),
    (b"X 'a'b\r\n", OPEN_QUOTE),
    (b"X \"a\"\"b\"\r\n", OPEN_QUOTE),
    (b"X \"a\"'b'\r\n", OPEN_QUOTE),
    (b"X \"a\\\"\r\n", OPEN_QUOTE),
    (b"X 'a\\'\r\n", OPEN_QUOTE),
    (b"X 'a\\\\'\r\n", OPEN_QUOTE),
    (b"X \"a\\\r\n", OPEN_QUOTE),
    (b"X a\"\r\n", OPEN_QUOTE),
    (
        b"PING\r\nX \"a\r\nPING\r\n",
        b"+PONG\r\n-ERR Protocol error: unbalanced quotes in request\r\n",
    ),
];

// The same in quotes.
const QUOTED_ARGUMENTS: [(&[u8], &[u8]); 11] = [
    (b"X \"a b\" c\r\n", b"'a b' 'c' "),
    (b"X 'a b' c\r\n", b"'a b' 'c' "),
    (b"X \"\"\r\n", b"'' "),
    (b"X '' a\r\n", b"'' 'a' "),
    (
        b"X \"\\xg1\" \"\\x1\" \"\\x1g\" \"\\x\" \"\\X41\"\r\n",
        b"'xg1' 'x1' 'x1g' 'x' 'X41' ",
    ),
    (b"X 'a\\'b' '\\n' '\\\\a'\r\n", b"'a'b' '\\n' '\\\\a' "),
    (b"X \"'\" '\"'\r\n", b"''' '\"' "),
    (b"X a\"b c\"\r\n", b"'ab c' "),
    (b"X a'b c'\r\n", b"'ab c' "),
    (b"X \"a\"\x0bb\r\n", b"'a' 'b' "),
    (b"X \"a\"\r\r\n", b"'a' "),
];

/// What was sent is answered so, in pieces of any size.
fn is_answered(rt: &impl Abort, alloc: Global, sent: &[u8], wanted: &[u8]) -> Result<(), Fail> {
    for size in [1, 2, 3, 7, 1000] {
        let answers = answers_to(alloc, Limits::of_redis(), sent, size)?;
        let same = answers.as_slice() == wanted;
        let shown = String::from_utf8_lossy(alloc, sent)?;
        let told = String::from_utf8_lossy(alloc, &answers)?;
        assert!(rt; same, "{shown} in pieces of {size}: {told}");
    }
    Ok(())
}

/// Each row is answered by what was seen.
fn all_answered(rt: &impl Abort, alloc: Global, rows: &[(&[u8], &[u8])]) -> Result<(), Fail> {
    for (sent, seen) in rows {
        is_answered(rt, alloc, sent, seen)?;
    }
    Ok(())
}

/// Each row is answered by what it tells, with the same before it and the same behind it.
fn all_told(
    rt: &impl Abort,
    alloc: Global,
    before: &[u8],
    rows: &[(&[u8], &[u8])],
    behind: &[u8],
) -> Result<(), Fail> {
    for (sent, told) in rows {
        let mut wanted = Vec::from_slice(alloc, before)?;
        wanted.extend_from_slice(told)?;
        wanted.extend_from_slice(behind)?;
        is_answered(rt, alloc, sent, &wanted)?;
    }
    Ok(())
}

#[test]
fn arrays_are_answered(rt: HostRuntime) -> Result<(), Fail> {
    all_answered(&rt, rt.alloc(), &ARRAYS)
}

#[test]
fn counts_are_answered(rt: HostRuntime) -> Result<(), Fail> {
    all_answered(&rt, rt.alloc(), &COUNTS)?;
    all_told(&rt, rt.alloc(), NO_DOLLAR, &NO_ARGUMENTS, b"'\r\n")
}

#[test]
fn words_are_answered(rt: HostRuntime) -> Result<(), Fail> {
    let alloc = rt.alloc();
    all_answered(&rt, alloc, &WORDS)?;
    let no_arguments = b"', with args beginning with: \r\n";
    all_told(&rt, alloc, b"-ERR unknown command '", &NAMES, no_arguments)?;
    all_told(&rt, alloc, UNKNOWN, &ARGUMENTS, b"\r\n")
}

#[test]
fn quotes_are_answered(rt: HostRuntime) -> Result<(), Fail> {
    all_answered(&rt, rt.alloc(), &QUOTES)?;
    all_told(&rt, rt.alloc(), UNKNOWN, &QUOTED_ARGUMENTS, b"\r\n")
}
