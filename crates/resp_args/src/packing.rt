//! Arguments as the bytes that a command is sent as.
ghost use Rattle.std.specs.Prelude.{◌≡◌, ◌≤◌, ◌<◌, ℕ, List, ◌∷◌, ◌++◌, map, codes, decimal, MatchResult, IfOk};
ghost use Rattle.resp_args.specs.Left.{shown};
ghost use Rattle.resp_args.specs.Packed.{packed, wire, wire_arg, packed_arg, packed_args};

use crate::arguments::{ArgsIter, Arguments};
use crate::cmd::Arg;
use itoa::Buffer;
use std::alloc::{AllocError, Global};

// What a packed argument takes beside its bytes, and the line of a count, where neither number is above 10^11.
const LINES: usize = 16;

/// The bytes that a list of arguments is sent as. It is refused only for want of memory.
///
/// Source: Redis serialization protocol specification, "Sending commands to a Redis server".
pub fn pack_command(alloc: Global, args: &[Vec<u8>]) -> Result<Vec<u8>, AllocError>
    ensures { IfOk result (λ v. v.items ≡ packed (map (λ a. a.items) args.now)) }
{
    let mut out = Vec::with_capacity(alloc, packed_room(args.len(), bytes_in(args)))?;
    pack_args(&mut out, args)?;
    Ok(out)
}

/// Appends the bytes that a list of arguments is sent as. The room for them is made at once.
///
/// It is refused only for want of memory; some more bytes may then stand behind those of the buffer.
/// Source: Redis serialization protocol specification, "Sending commands to a Redis server".
pub fn pack_command_into(out: &mut Vec<u8>, args: &[Vec<u8>]) -> Result<(), AllocError>
    ensures { MatchResult result
        (λ _. out.new.items ≡ out.old.items ++ packed (map (λ a. a.items) args.now))
        (λ _. (more : List ℕ) × (out.new.items ≡ out.old.items ++ more)) }
{
    out.reserve(packed_room(args.len(), bytes_in(args)))?;
    pack_args(out, args)
}

/// The line of the arguments' count, and behind it the arguments.
fn pack_args(out: &mut Vec<u8>, args: &[Vec<u8>]) -> Result<(), AllocError>
    ensures { MatchResult result
        (λ _. out.new.items ≡ out.old.items ++ packed (map (λ a. a.items) args.now))
        (λ _. (more : List ℕ) × (out.new.items ≡ out.old.items ++ more)) }
{
    write_count(out, b'*', args.len())?;
    pack_each(out, args)
}

/// Room for so many arguments of so many bytes in all, once they are packed.
fn packed_room(count: usize, bytes: usize) -> usize {
    count
        .saturating_add(1)
        .saturating_mul(LINES)
        .saturating_add(bytes)
}

fn bytes_in(args: &[Vec<u8>]) -> usize {
    let mut bytes = 0usize;
    for arg in args {
        bytes = bytes.saturating_add(arg.len());
    }
    bytes
}

fn pack_each(out: &mut Vec<u8>, args: &[Vec<u8>]) -> Result<(), AllocError>
    ensures { MatchResult result
        (λ _. out.new.items ≡ out.old.items ++ packed_args (map (λ a. a.items) args.now))
        (λ _. (more : List ℕ) × (out.new.items ≡ out.old.items ++ more)) }
{
    for arg in args {
        pack_arg(out, arg)?;
    }
    Ok(())
}

/// Where memory is refused, some more bytes stand behind those of the buffer.
pub(crate) fn pack(out: &mut Vec<u8>, args: &Arguments, cursor: u64) -> Result<(), AllocError>
    ensures { MatchResult result (λ _. out.new.items ≡ out.old.items ++ packed (wire cursor args.now))
        (λ _. (more : List ℕ) × (out.new.items ≡ out.old.items ++ more)) }
{
    let count = args.len();
    out.reserve(packed_room(count, args.byte_count()))?;
    write_count(out, b'*', count)?;
    pack_all(out, args.iter(), cursor)
}

fn pack_all(out: &mut Vec<u8>, args: ArgsIter<'_>, cursor: u64) -> Result<(), AllocError>
    ensures { MatchResult result (λ _. out.new.items ≡ out.old.items ++ packed_args (wire cursor args.entry))
        (λ _. (more : List ℕ) × (out.new.items ≡ out.old.items ++ more)) }
{
    for arg in args {
        pack_one(out, arg, cursor)?;
    }
    Ok(())
}

fn pack_one(out: &mut Vec<u8>, arg: Arg<&[u8]>, cursor: u64) -> Result<(), AllocError>
    ensures { MatchResult result
        (λ _. out.new.items ≡ out.old.items ++ packed_arg (wire_arg cursor (shown arg.entry)))
        (λ _. (more : List ℕ) × (out.new.items ≡ out.old.items ++ more)) }
{
    match arg {
        Arg::Simple(bytes) => pack_arg(out, bytes),
        Arg::Cursor => pack_arg(out, Buffer::new().format(cursor).as_bytes()),
    }
}

/// A kind of length, the length in decimal and the end of its line.
fn write_count(out: &mut Vec<u8>, kind: u8, count: usize) -> Result<(), AllocError>
    ensures { MatchResult result
        (λ _. out.new.items ≡ out.old.items ++ (kind ∷ decimal count ++ codes "\r\n"))
        (λ _. (more : List ℕ) × (out.new.items ≡ out.old.items ++ more)) }
{
    if count < 10 {
        write_digit(out, kind, count as u8)
    } else if count < 100 {
        write_two_digits(out, kind, count as u8)
    } else {
        write_long_count(out, kind, count)
    }
}

/// The line of a count below 10, in one piece.
fn write_digit(out: &mut Vec<u8>, kind: u8, count: u8) -> Result<(), AllocError>
    requires { count < 10 }
    ensures { MatchResult result
        (λ _. out.new.items ≡ out.old.items ++ (kind ∷ decimal count ++ codes "\r\n"))
        (λ _. (more : List ℕ) × (out.new.items ≡ out.old.items ++ more)) }
{
    out.extend_from_slice(&[kind, b'0' + count, b'\r', b'\n'])
}

/// The line of a count of two digits, in one piece.
fn write_two_digits(out: &mut Vec<u8>, kind: u8, count: u8) -> Result<(), AllocError>
    requires { 10 ≤ count × (count < 100) }
    ensures { MatchResult result
        (λ _. out.new.items ≡ out.old.items ++ (kind ∷ decimal count ++ codes "\r\n"))
        (λ _. (more : List ℕ) × (out.new.items ≡ out.old.items ++ more)) }
{
    out.extend_from_slice(&[kind, b'0' + count / 10, b'0' + count % 10, b'\r', b'\n'])
}

/// The line of a count of three digits and more.
#[inline(never)]
fn write_long_count(out: &mut Vec<u8>, kind: u8, count: usize) -> Result<(), AllocError>
    ensures { MatchResult result
        (λ _. out.new.items ≡ out.old.items ++ (kind ∷ decimal count ++ codes "\r\n"))
        (λ _. (more : List ℕ) × (out.new.items ≡ out.old.items ++ more)) }
{
    out.push(kind)?;
    out.extend_from_slice(Buffer::new().format(count).as_bytes())?;
    out.extend_from_slice(b"\r\n")
}

fn pack_arg(out: &mut Vec<u8>, arg: &[u8]) -> Result<(), AllocError>
    ensures { MatchResult result (λ _. out.new.items ≡ out.old.items ++ packed_arg arg.now)
        (λ _. (more : List ℕ) × (out.new.items ≡ out.old.items ++ more)) }
{
    write_count(out, b'$', arg.len())?;
    out.extend_from_slice(arg)?;
    out.extend_from_slice(b"\r\n")
}
