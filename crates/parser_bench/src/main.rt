//! The program `parser_bench`: how long a parser takes for the bytes of standard input.
//!
//! Its argument is how many bytes are fed at a time, 4096 where there is none. It prints how many
//! values the bytes spell and how many bytes the parser looked at, and to standard error how many
//! microseconds that took. Its status is 1 where the argument is no number above 0, the bytes are at
//! fault, a stream failed or memory was refused.
#![tactic(auto)]

ghost use Rattle.std.specs.Prelude.{◌<◌, IfOk};

use resp_core::{Cause, Parser, RedisError};
use std::alloc::Global;
use std::env;
use std::io::{self, Read};
use std::process::ExitCode;
use std::time::Instant;

/// What a parser made of bytes.
#[derive(Clone, Copy, Debug)]
struct Counts {
    values: u64,
    looked: u64,
}

/// Feeds the bytes in pieces, and takes each value as soon as it is whole.
fn count(alloc: Global, bytes: &[u8], piece: usize) -> Result<Counts, RedisError>
    requires { 0 < piece }
{
    let mut parser = Parser::new(alloc);
    let mut values = 0u64;
    for front in bytes.chunks(piece) {
        parser.feed(front)?;
        values = values.saturating_add(take_values(&mut parser)?);
    }
    Ok(Counts {
        values,
        looked: parser.looked(),
    })
}

/// How many values the parser has whole; it hands all of them out.
fn take_values(parser: &mut Parser) -> Result<u64, RedisError> {
    for taken in 0..u64::MAX {
        if parser.take_value()?.is_none() {
            return Ok(taken);
        }
    }
    Ok(u64::MAX)
}

/// How many bytes are fed at a time.
fn piece(rt: &HostRuntime) -> io::Result<usize>
    ensures { IfOk result (λ piece. 0 < piece) }
{
    let Some(argument) = env::args(rt)?.nth(1) else {
        return Ok(4096);
    };
    match argument.parse::<usize>() {
        Ok(piece) if piece > 0 => Ok(piece),
        _ => Err(io::Error::from(io::ErrorKind::InvalidInput)),
    }
}

fn run(rt: &HostRuntime) -> Result<(), RedisError> {
    let failed = |_| RedisError::from(Cause::Io);
    let piece = piece(rt).map_err(failed)?;
    let mut bytes = Vec::new(rt.alloc());
    rt.reader().read_to_end(&mut bytes).map_err(failed)?;
    let start = Instant::now(rt).map_err(failed)?;
    let counts = count(rt.alloc(), &bytes, piece)?;
    let spent = start.elapsed(rt).map_err(failed)?;
    eprintln!(rt; "{} microseconds", spent.as_micros()).map_err(failed)?;
    println!(rt;
        "{} values, {} bytes looked at",
        counts.values, counts.looked
    )
    .map_err(failed)
}

fn main(rt: HostRuntime) -> ExitCode {
    match run(&rt) {
        Ok(()) => ExitCode::SUCCESS,
        Err(_) => ExitCode::FAILURE,
    }
}
