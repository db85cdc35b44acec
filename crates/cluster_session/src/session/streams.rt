//! A session's text in.
ghost use Rattle.std.specs.Prelude.{◌≡◌, ◌⊎◌, ◌+◌, ◌≤◌, IfErr, IfOk, OnOk, IsErrOf};
ghost use Rattle.std.specs.Io.KnownBytes.{Consumes, IsAtEnd};
ghost use Rattle.resp_core.specs.Errors.{by_cause};
ghost use Rattle.resp_core.specs.declared.errors.redis_error.Cause.TheVariants.{Io, Memory};
ghost use Rattle.cluster_session.specs.Streams.{NoneRefused, ReadingFailed};

use resp_core::{Cause, LinkRead, RedisError};
use std::alloc::Global;

/// The bytes of a reader up to its end, which `reads` reads have to reach.
pub(super) fn read_text<R: LinkRead>(
    alloc: Global,
    reader: &mut R,
    reads: u64,
) -> Result<Vec<u8>, RedisError>
    ensures all { IfOk result (λ text. Consumes (R.unread reader.old) (R.unread reader.new) text.items) }
    ensures to_the_end { OnOk result (IsAtEnd (R.unread reader.new)) }
    ensures unrefused { OnOk result (NoneRefused (R.counts reader.old) (R.counts reader.new)) }
    ensures causes { IfErr result (λ e. (e ≡ by_cause Io) ⊎ (e ≡ by_cause Memory)) }
    // A read that fails is told as `Io`, and what was read and finds no room as `Memory`.
    ensures fails { IsErrOf result (by_cause Io)
        → ReadingFailed reads (R.counts reader.old) (R.counts reader.new) }
    ensures starves { IsErrOf result (by_cause Memory)
        → NoneRefused (R.counts reader.old) (R.counts reader.new) }
    ensures reads { (R.counts reader.new).reads ≤ (R.counts reader.old).reads + reads }
{
    let mut text = Vec::new(alloc);
    let mut buffer = [0u8; 4096];
    'reading: for i in 0..reads {
        match reader.read_some(&mut buffer) {
            Ok(0) => return Ok(text),
            Ok(count) => text.extend_from_slice(&buffer[..count])?,
            Err(_) => return Err(RedisError::from(Cause::Io)),
        }
    }
    Err(RedisError::from(Cause::Io))
}
