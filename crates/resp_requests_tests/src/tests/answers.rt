//! What a server answers the commands that are read, so far as the table of what was seen needs it.
use resp_requests::{Fault, Limits, RequestError, RequestReader};
use std::alloc::Global;
use std::test::*;

// How many commands are taken of one text at most.
const ENOUGH: u32 = 100;

fn bulk(alloc: Global, text: &[u8], answers: &mut Vec<u8>) -> Result<(), Fail> {
    answers.extend_from_slice(format!(in alloc; "${}\r\n", text.len())?.as_bytes())?;
    answers.extend_from_slice(text)?;
    answers.extend_from_slice(b"\r\n")?;
    Ok(())
}

fn unknown(command: &[Vec<u8>], answers: &mut Vec<u8>) -> Result<(), Fail> {
    for (i, word) in command.iter().enumerate() {
        if i == 0 {
            answers.extend_from_slice(b"-ERR unknown command '")?;
            answers.extend_from_slice(word)?;
            answers.extend_from_slice(b"', with args beginning with: ")?;
        } else {
            answers.extend_from_slice(b"'")?;
            answers.extend_from_slice(word)?;
            answers.extend_from_slice(b"' ")?;
        }
    }
    answers.extend_from_slice(b"\r\n")?;
    Ok(())
}

/// PING and ECHO are answered, and each other command is refused with its words.
fn answer(alloc: Global, command: &[Vec<u8>], answers: &mut Vec<u8>) -> Result<(), Fail> {
    match command {
        [name] if name.as_slice() == b"PING".as_slice() => answers.extend_from_slice(b"+PONG\r\n")?,
        [name, text] if name.as_slice() == b"ECHO".as_slice() => bulk(alloc, text, answers)?,
        _ => unknown(command, answers)?,
    }
    Ok(())
}

fn refuse(alloc: Global, fault: Fault, answers: &mut Vec<u8>) -> Result<(), Fail> {
    answers.extend_from_slice(b"-ERR ")?;
    answers.extend_from_slice(&fault.message(alloc)?)?;
    answers.extend_from_slice(b"\r\n")?;
    Ok(())
}

/// All that can be taken is answered; whether more may come.
fn answer_all(
    alloc: Global,
    reader: &mut RequestReader,
    answers: &mut Vec<u8>,
) -> Result<bool, Fail> {
    for _ in 0..ENOUGH {
        match reader.take_command() {
            Ok(Some(command)) => answer(alloc, &command, answers)?,
            Ok(None) => return Ok(true),
            Err(RequestError::Protocol(fault)) => {
                refuse(alloc, fault, answers)?;
                return Ok(false);
            }
            Err(RequestError::Memory) => return Ok(None.ok_or("memory was refused")?),
        }
    }
    Ok(None.ok_or("more than enough commands")?)
}

/// What is answered to the bytes, fed so many at a time; behind a fault nothing more is.
pub(crate) fn answers_to(
    alloc: Global,
    limits: Limits,
    bytes: &[u8],
    size: usize,
) -> Result<Vec<u8>, Fail> {
    let mut reader = RequestReader::with_limits(alloc, limits);
    let mut answers = Vec::new(alloc);
    for piece in bytes.chunks(size.max(1)) {
        reader.feed(piece)?;
        if !answer_all(alloc, &mut reader, &mut answers)? {
            return Ok(answers);
        }
    }
    Ok(answers)
}
