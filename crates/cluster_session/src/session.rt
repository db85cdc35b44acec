//! A session: a text that sets up nodes and calls, read whole, checked whole, then played.
ghost use Rattle.std.specs.Prelude.{◌≡◌, ◌⊎◌, ◌+◌, ◌^◌, ◌≤◌, IfErr, IfOk, IsErrOf, OnOk, true};
ghost use Rattle.std.specs.Io.KnownBytes.{IsAtEnd};
ghost use Rattle.resp_core.specs.Errors.{by_cause};
ghost use Rattle.resp_core.specs.declared.errors.redis_error.Cause.TheVariants.{Io, Memory};
ghost use Rattle.resp_link.specs.Counts.{LastRefused};
ghost use Rattle.cluster_session.specs.Output.{Prints};
ghost use Rattle.cluster_session.specs.Streams.{NoneRefused, ReadingFailed};

mod calls;
mod levels;
mod lines;
mod play;
mod print;
mod script;
mod streams;

use resp_core::{LinkRead, RedisError};
use resp_link::{LinkWrite, send_all};
use std::alloc::Global;

// How many reads a session's text may take.
const READS: u64 = 4_294_967_296;

/// Reads a session to the end of `reader`, plays it, and writes what it prints to `writer`.
///
/// Answers 0, or 2 where the text is no session; then `fault line N` alone was written, where N
/// is the number from 1 of the first bad line, and nothing was called. Every refusal of a call is
/// part of what is printed. docs/SESSIONS.md has the language.
///
/// # Errors
/// `Io` where a device fails or 2^32 reads do not reach the end of the text, and `Memory` where memory
/// is refused outside a call.
pub fn run_session<R: LinkRead, W: LinkWrite>(
    alloc: Global,
    reader: &mut R,
    writer: &mut W,
) -> Result<u8, RedisError>
    ensures reads_all { OnOk result (IsAtEnd (R.unread reader.new)) }
    ensures writes { IfOk result
        (λ status. Prints status (R.unread reader.old) (R.unread reader.new) (W.written writer.old)
        (W.written writer.new)) }
    ensures flushes { OnOk result (W.flushed writer.new ≡ true) }
    ensures causes { IfErr result (λ e. (e ≡ by_cause Io) ⊎ (e ≡ by_cause Memory)) }
    // A device that fails is told as `Io`, and want of memory as `Memory`, with nothing written.
    ensures fails { IsErrOf result (by_cause Io)
        → ReadingFailed (2 ^ 32) (R.counts reader.old) (R.counts reader.new)
        ⊎ LastRefused (W.counts writer.old) (W.counts writer.new) }
    ensures starves { IsErrOf result (by_cause Memory)
        → NoneRefused (R.counts reader.old) (R.counts reader.new)
        × (W.counts writer.new ≡ W.counts writer.old) × (W.written writer.new ≡ W.written writer.old) }
    // The text takes 2^32 reads at most.
    ensures reads { (R.counts reader.new).reads ≤ (R.counts reader.old).reads + 2 ^ 32 }
{
    let text = streams::read_text(alloc, reader, READS)?;
    let printed = play::play(alloc, text.as_slice())?;
    send_all(writer, printed.output.as_bytes())?;
    Ok(printed.status)
}
