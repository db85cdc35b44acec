//! The parts of an array: its count, and its arguments.
ghost use Rattle.resp_requests.specs.Arrays.{count_at, argument_at};
ghost use Rattle.resp_requests.specs.Given.{Gives};
ghost use Rattle.resp_requests.specs.Searches.{Unended};

use crate::fault::Fault;
use crate::limits::Limits;
use crate::line::head_of;
use crate::number::{is_negative, number_of};
use crate::stop::Stop;
use std::alloc::Global;

/// How many arguments an array announces, and what is behind its line. The first `searched` bytes are not
/// searched again, and it leaves how many were.
#[tactic(auto, unfolding(crate::specs::Arrays::count_at, crate::specs::Arrays::count_in))]
pub(crate) fn count_of<'a>(
    bytes: &'a [u8],
    searched: &mut usize,
    limits: Limits,
) -> Result<(usize, &'a [u8]), Stop>
    requires { Unended 13 limits.longest_line bytes.now searched.old }
    ensures gives { Gives (λ x. (x.0, x.1.now)) result (count_at limits bytes.now) }
    ensures searched { Unended 13 limits.longest_line bytes.now searched.new }
{
    let (line, rest) = head_of(bytes, searched, limits.longest_line, Fault::LongCount)?;
    let digits = match line {
        [_, digits @ ..] => digits,
        [] => line,
    };
    if is_negative(digits) {
        return Ok((0, rest));
    }
    match number_of(digits) {
        Some(count) if count <= limits.most_arguments as u64 => Ok((count as usize, rest)),
        _ => Err(Stop::Fault(Fault::BadCount)),
    }
}

/// The argument at the front of the bytes, and what is behind it. The first `searched` bytes are not searched
/// again for the end of its length, and it leaves how many were.
#[tactic(auto, unfolding(crate::specs::Arrays::argument_at, crate::specs::Arrays::length_in, crate::specs::Arrays::text_at))]
pub(crate) fn argument_of<'a>(
    alloc: Global,
    bytes: &'a [u8],
    searched: &mut usize,
    limits: Limits,
) -> Result<(Vec<u8>, &'a [u8]), Stop>
    requires { Unended 13 limits.longest_line bytes.now searched.old }
    ensures gives { Gives (λ x. (x.0.items, x.1.now)) result (argument_at limits bytes.now) }
    ensures searched { Unended 13 limits.longest_line bytes.now searched.new }
{
    let (line, rest) = head_of(bytes, searched, limits.longest_line, Fault::LongLength)?;
    let digits = match line {
        [b'$', digits @ ..] => digits,
        [byte, ..] => return Err(Stop::Fault(Fault::NoDollar(*byte))),
        [] => return Err(Stop::Fault(Fault::NoDollar(b'\r'))),
    };
    let length = match number_of(digits) {
        Some(length) if length <= limits.longest_argument as u64 => length as usize,
        _ => return Err(Stop::Fault(Fault::BadLength)),
    };
    if rest.len() < 2 || rest.len() - 2 < length {
        return Err(Stop::Short);
    }
    let text = Vec::from_slice(alloc, &rest[..length])?;
    Ok((text, &rest[length + 2..]))
}
