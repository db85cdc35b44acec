//! Why bytes are no request.
ghost use Rattle.std.specs.Prelude.{◌≡◌, IfOk};
ghost use Rattle.resp_requests.specs.Messages.{message, no_dollar, shown};

use std::alloc::{AllocError, Global};

/// Why bytes are no request, and cannot become one. Source: the protocol errors of Redis 7.0.15.
#[derive(Clone, Copy, Debug, PartialEq, Eq)]
pub enum Fault {
    /// An inline line is longer than its limit.
    LongInline,
    /// The line of an array is longer than its limit.
    LongCount,
    /// The line before an argument is longer than its limit.
    LongLength,
    /// The number of arguments is no number, or above its limit.
    BadCount,
    /// A line before an argument begins with this byte in place of `$`. An empty line has its CR.
    NoDollar(u8),
    /// The length of an argument is no number, or above its limit.
    BadLength,
    /// An inline quote is left open, or something stands close behind it.
    OpenQuote,
    /// A zero byte stands in a line. A Redis server finds no end of such a line.
    ZeroByte,
}

/// A line of an error has no end within.
fn shown(byte: u8) -> u8
    ensures { result ≡ shown byte }
{
    if byte == b'\r' || byte == b'\n' {
        b' '
    } else {
        byte
    }
}

/// That of a `NoDollar`.
fn no_dollar(alloc: Global, byte: u8) -> Result<Vec<u8>, AllocError>
    ensures { IfOk result (λ text. text.items ≡ no_dollar byte) }
{
    let mut text = Vec::from_slice(alloc, b"Protocol error: expected '$', got '")?;
    text.push(shown(byte))?;
    text.push(b'\'')?;
    Ok(text)
}

impl Fault {
    /// The text by which a Redis server refuses, behind `-ERR` and a blank; that of a `ZeroByte` is this
    /// library's own.
    pub fn message(self, alloc: Global) -> Result<Vec<u8>, AllocError>
        ensures { IfOk result (λ text. text.items ≡ message self) }
    {
        match self {
            Fault::LongInline => Vec::from_slice(alloc, b"Protocol error: too big inline request"),
            Fault::LongCount => Vec::from_slice(
                alloc,
                b"Protocol error: too big mbulk count string",
            ),
            Fault::LongLength => Vec::from_slice(
                alloc,
                b"Protocol error: too big bulk count string",
            ),
            Fault::BadCount => Vec::from_slice(alloc, b"Protocol error: invalid multibulk length"),
            Fault::NoDollar(byte) => no_dollar(alloc, byte),
            Fault::BadLength => Vec::from_slice(alloc, b"Protocol error: invalid bulk length"),
            Fault::OpenQuote => {
                Vec::from_slice(alloc, b"Protocol error: unbalanced quotes in request")
            }
            Fault::ZeroByte => Vec::from_slice(alloc, b"Protocol error: zero byte in a line"),
        }
    }
}
