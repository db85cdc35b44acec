//! Limits, faults that stay, and what is kept.
use crate::tests::answers::answers_to;
use crate::tests::seen::{BAD_COUNT, BAD_LENGTH};
use resp_requests::{
    Fault, Limits, RequestError, RequestReader, any_pieces, examples, one_after_another,
};
use std::alloc::Global;
use std::process::Abort;
use std::test::*;

const SMALL: Limits = Limits {
    most_arguments: 2,
    longest_argument: 4,
    longest_line: 6,
};

// Bytes at the limits, and one beyond each.
const AT_LIMITS: [(&[u8], &[u8]); 9] = [
    (b"*2\r\n$4\r\nECHO\r\n$4\r\nabcd\r\n", b"$4\r\nabcd\r\n"),
    (b"*3\r\n", BAD_COUNT),
    (b"*1\r\n$5\r\n", BAD_LENGTH),
    (b"ECHO a\n", b"$1\r\na\r\n"),
    (
        b"ECHO a\r",
        b"-ERR Protocol error: too big inline request\r\n",
    ),
    (b"*00000", b""),
    (
        b"*000000",
        b"-ERR Protocol error: too big mbulk count string\r\n",
    ),
    (b"*1\r\n$00000", b""),
    (
        b"*1\r\n$000000",
        b"-ERR Protocol error: too big bulk count string\r\n",
    ),
];

#[test]
fn limits_are_kept(rt: HostRuntime) -> Result<(), Fail> {
    for size in [1, 2, 100] {
        for (sent, wanted) in AT_LIMITS {
            let answers = answers_to(rt.alloc(), SMALL, sent, size)?;
            let same = answers.as_slice() == wanted;
            let shown = String::from_utf8_lossy(rt.alloc(), sent)?;
            assert!(rt; same, "{shown} in pieces of {size}");
        }
    }
    Ok(())
}

// Lines with quotes, with a zero byte, at the limit and one beyond it, behind one another, and unfinished.
const LINES: [&[u8]; 9] = [
    b"'a b'\nPING\n",
    b"X \"b\n",
    b"ECHO a\r\nPING\n",
    b"a b\0\n",
    b"123456\n123456\nPING\n",
    b"PING\n1234567\n",
    b"  \n\n\"\\n\"\nPI",
    b"*1\r\n$4\r\nPING\r\nX b\n*0\r\nX",
    b"PING\n*1\r\n$0001\r\n",
];

#[test]
fn pieces_are_answered_as_the_whole(rt: HostRuntime) -> Result<(), Fail> {
    for sent in LINES {
        let whole = answers_to(rt.alloc(), SMALL, sent, sent.len())?;
        for size in [1, 2, 3, 5] {
            let answers = answers_to(rt.alloc(), SMALL, sent, size)?;
            let same = answers.as_slice() == whole.as_slice();
            let shown = String::from_utf8_lossy(rt.alloc(), sent)?;
            assert!(rt; same, "{shown} in pieces of {size}");
        }
    }
    Ok(())
}

/// A server of Redis 7.0.15 took a line of 65536 bytes before its LF, and said of 65537 that they are too many.
#[test]
fn long_lines_are_as_those_of_redis(rt: HostRuntime) -> Result<(), Fail> {
    let alloc = rt.alloc();
    let mut line = Vec::new(alloc);
    for _ in 0..65_536 {
        line.push(b' ')?;
    }
    let mut reader = RequestReader::new(alloc);
    reader.feed(&line)?;
    assert!(rt; matches!(reader.take_command(), Ok(None)));
    reader.feed(b"\nPING\n")?;
    assert!(rt; matches!(reader.take_command(), Ok(Some(_))));
    line.push(b' ')?;
    let mut reader = RequestReader::new(alloc);
    reader.feed(&line)?;
    let answer = reader.take_command();
    assert!(rt; matches!(answer, Err(RequestError::Protocol(Fault::LongInline))));
    Ok(())
}

fn is_fault(answer: Result<Option<Vec<Vec<u8>>>, RequestError>, fault: Fault) -> bool {
    match answer {
        Err(RequestError::Protocol(told)) => told == fault,
        _ => false,
    }
}

#[test]
fn a_fault_is_told_for_good(rt: HostRuntime) -> Result<(), Fail> {
    let mut reader = RequestReader::new(rt.alloc());
    reader.feed(b"PING\r\n*x\r\n")?;
    assert!(rt; matches!(reader.take_command(), Ok(Some(_))));
    assert!(rt; is_fault(reader.take_command(), Fault::BadCount));
    reader.feed(b"PING\r\n")?;
    assert!(rt; is_fault(reader.take_command(), Fault::BadCount));
    Ok(())
}

/// Redis 7.0.15 waits behind a zero byte in a line until it is too long; here it is told at once.
#[test]
fn a_zero_byte_ends_the_reading(rt: HostRuntime) -> Result<(), Fail> {
    for sent in [
        b"PING\0".as_slice(),
        b"*1\0".as_slice(),
        b"*1\r\n$4\0".as_slice(),
    ] {
        let mut reader = RequestReader::new(rt.alloc());
        reader.feed(sent)?;
        assert!(rt; is_fault(reader.take_command(), Fault::ZeroByte));
    }
    let mut reader = RequestReader::new(rt.alloc());
    reader.feed(b"*1\r\n$2\r\n\0\n\r\n")?;
    assert!(rt; matches!(reader.take_command(), Ok(Some(_))));
    Ok(())
}

/// A large argument that comes in small pieces, and then a command behind it.
#[test]
fn a_large_argument_comes_in_pieces(rt: HostRuntime) -> Result<(), Fail> {
    let alloc = rt.alloc();
    let mut reader = RequestReader::new(alloc);
    reader.feed(b"*2\r\n$4\r\nECHO\r\n$1000000\r\n")?;
    for _ in 0..100_000 {
        assert!(rt; matches!(reader.take_command(), Ok(None)));
        reader.feed(b"0123456789")?;
    }
    reader.feed(b"\r\nPING\r\n")?;
    match reader.take_command() {
        Ok(Some(command)) => {
            assert_eq!(rt; command.len(), 2);
            assert_eq!(rt; command[1].len(), 1_000_000);
        }
        _ => assert!(rt; false, "no command"),
    }
    assert!(rt; matches!(reader.take_command(), Ok(Some(_))));
    assert!(rt; matches!(reader.take_command(), Ok(None)));
    Ok(())
}

/// A command, where the reader may be asked again after memory was refused.
fn taken(reader: &mut RequestReader) -> Result<Option<Vec<Vec<u8>>>, RequestError> {
    match reader.take_command() {
        Err(RequestError::Memory) => reader.take_command(),
        answer => answer,
    }
}

#[test]
fn refused_memory_loses_nothing(rt: HostRuntime) -> Result<(), Fail> {
    let alloc = rt.alloc();
    let mut reader = RequestReader::new(alloc);
    let bytes = b"*2\r\n$4\r\nECHO\r\n$1\r\na\r\nECHO 'b c'\r\n";
    if reader.feed(bytes).is_err() {
        reader.feed(bytes)?;
    }
    for text in [b"a".as_slice(), b"b c".as_slice()] {
        match taken(&mut reader) {
            Ok(Some(command)) => {
                assert_eq!(rt; command.len(), 2);
                assert_eq!(rt; command[1].as_slice(), text);
            }
            _ => assert!(rt; false, "no command"),
        }
    }
    Ok(())
}

#[test]
fn laws_are_there(rt: HostRuntime) {
    one_after_another();
    any_pieces();
    examples();
    assert_eq!(rt; Limits::of_redis().longest_line, 65_536);
}
