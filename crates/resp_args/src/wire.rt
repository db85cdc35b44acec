//! The arguments of a command as they stand on the wire.
ghost use Rattle.std.specs.Prelude.{◌≡◌, ◌++◌, map, IfOk};
ghost use Rattle.resp_args.specs.Left.{shown};
ghost use Rattle.resp_args.specs.Packed.{wire, wire_arg};

use crate::arguments::ArgsIter;
use crate::cmd::Arg;
use itoa::Buffer;
use std::alloc::{AllocError, Global};

/// Each argument once more; a gap is the decimal of `cursor`.
pub(crate) fn wire(
    alloc: Global,
    args: ArgsIter<'_>,
    cursor: u64,
) -> Result<Vec<Vec<u8>>, AllocError>
    ensures { IfOk result (λ v. map (λ a. a.items) v.items ≡ wire cursor args.entry) }
{
    let mut all = Vec::with_capacity(alloc, args.count_left())?;
    for arg in args {
        all.push(wire_arg(alloc, arg, cursor)?)?;
    }
    Ok(all)
}

fn wire_arg(alloc: Global, arg: Arg<&[u8]>, cursor: u64) -> Result<Vec<u8>, AllocError>
    ensures { IfOk result (λ v. v.items ≡ wire_arg cursor (shown arg.entry)) }
{
    match arg {
        Arg::Simple(bytes) => Vec::from_slice(alloc, bytes),
        Arg::Cursor => Vec::from_slice(alloc, Buffer::new().format(cursor).as_bytes()),
    }
}
