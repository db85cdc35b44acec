//! Requests are made ready before they go out: they are packed, and have room in the log.
ghost use Rattle.std.specs.Prelude.{◌≡◌, ◌+◌, ◌≤◌, ◌++◌, map, vec_capacity, vec_len, IfOk, OnOk};
ghost use Rattle.resp_args.specs.Packed.{packed};
ghost use Rattle.cluster_routing.specs.Info.{texts};
ghost use Rattle.cluster_calls.specs.Links.Request.{asking_command, bytes_of, outgoing_for};

use crate::asked::Asked;
use crate::dispatch::Dispatch;
use resp_args::{command, pack_command, pack_command_into};
use std::alloc::{AllocError, Global};

/// A dispatch, and the bytes that go out for it.
#[derive(Drop)]
pub struct Ready {
    pub dispatch: Dispatch,
    pub bytes: Vec<u8>,
    ghost packed: { bytes.items ≡ outgoing_for dispatch.to.asking (texts dispatch.args.items) },
}

/// The requests that go out over the link at one place, and their bytes.
#[derive(Drop)]
pub struct NodeRequests {
    pub link: usize,
    pub requests: Vec<Asked>,
    pub bytes: Vec<u8>,
    ghost packed: { bytes.items ≡ bytes_of requests.items },
}

/// Appends the bytes of the command ASKING.
fn append_asking(bytes: &mut Vec<u8>) -> Result<(), AllocError>
    ensures { OnOk result (bytes.new.items ≡ bytes.old.items ++ packed asking_command) }
{
    command::cmd(*bytes.allocator(), "ASKING")?.write_packed_command(bytes)
}

/// Appends the bytes of arguments, behind those of ASKING where that is wanted.
fn append_outgoing(bytes: &mut Vec<u8>, args: &[Vec<u8>], asking: bool) -> Result<(), AllocError>
    ensures { OnOk result
        (bytes.new.items ≡ bytes.old.items ++ outgoing_for asking (texts args.now)) }
{
    if !asking {
        return pack_command_into(bytes, args);
    }
    append_asking(bytes)?;
    pack_command_into(bytes, args)
}

/// The bytes of requests, one after another. Each is packed where it stands in the end.
pub(crate) fn bytes_of(alloc: Global, requests: &[Asked]) -> Result<Vec<u8>, AllocError>
    ensures { IfOk result (λ v. v.items ≡ bytes_of requests.now) }
{
    let mut bytes = Vec::new(alloc);
    for request in requests {
        append_outgoing(&mut bytes, &request.args, request.asking)?;
    }
    Ok(bytes)
}

/// The bytes of one request's arguments, behind those of ASKING where that is wanted. Without it they are packed
/// into room of just their size.
#[inline(never)]
fn outgoing_for(alloc: Global, args: &[Vec<u8>], asking: bool) -> Result<Vec<u8>, AllocError>
    ensures { IfOk result (λ v. v.items ≡ outgoing_for asking (texts args.now)) }
{
    if asking {
        let mut bytes = Vec::new(alloc);
        append_outgoing(&mut bytes, args, asking)?;
        return Ok(bytes);
    }
    pack_command(alloc, args)
}

/// Makes one dispatch ready, with room in the log for so many requests.
///
/// # Errors
/// `AllocError` where memory is refused; the log has the same requests as before.
pub fn make_ready(
    alloc: Global,
    log: &mut Vec<Asked>,
    dispatch: Dispatch,
    room: usize,
) -> Result<Ready, AllocError>
    ensures log { log.new.items ≡ log.old.items }
    ensures room { OnOk result (vec_len log.new + room ≤ vec_capacity log.new) }
    ensures dispatch { IfOk result (λ r. r.dispatch ≡ dispatch) }
{
    log.reserve(room)?;
    let bytes = outgoing_for(alloc, &dispatch.args, dispatch.to.asking)?;
    Ok(Ready { dispatch, bytes })
}

/// Makes all of these ready, with room in the log for a request of each.
///
/// # Errors
/// `AllocError` where memory is refused; the log has the same requests as before.
pub fn make_all_ready(
    alloc: Global,
    log: &mut Vec<Asked>,
    dispatches: Vec<Dispatch>,
) -> Result<Vec<Ready>, AllocError>
    ensures log { log.new.items ≡ log.old.items }
    ensures room { IfOk result (λ v. vec_len log.new + vec_len v ≤ vec_capacity log.new) }
    ensures dispatches { IfOk result (λ v. map (λ r. r.dispatch) v.items ≡ dispatches.items) }
{
    log.reserve(dispatches.len())?;
    let mut all = Vec::with_capacity(alloc, dispatches.len())?;
    'dispatches: for dispatch in dispatches {
        let bytes = outgoing_for(alloc, &dispatch.args, dispatch.to.asking)?;
        all.push(Ready { dispatch, bytes })?;
    }
    Ok(all)
}
