//! Lines.
ghost use Rattle.std.specs.Prelude.{◌≡◌, length, IsErrOf};
ghost use Rattle.resp_requests.specs.declared.stop.Stop.TheVariants.{Short};
ghost use Rattle.resp_requests.specs.Lines.{line_at, head_at};
ghost use Rattle.resp_requests.specs.Searches.{Unended};
ghost use Rattle.resp_requests.specs.Given.{Gives};

use crate::fault::Fault;
use crate::stop::Stop;

/// The bytes before the first byte `end`, and those behind it. More than `longest` are the fault `long`.
///
/// The first `searched` bytes hold no end and no fault, so that the search begins behind them and finds the
/// same as from the start. It leaves how many were searched, for a call with more bytes behind these.
pub(crate) fn line_of<'a>(
    bytes: &'a [u8],
    searched: &mut usize,
    end: u8,
    longest: usize,
    long: Fault,
) -> Result<(&'a [u8], &'a [u8]), Stop>
    requires { Unended end longest bytes.now searched.old }
    ensures gives { Gives (λ x. (x.0.now, x.1.now)) result (line_at end longest long bytes.now) }
    ensures searched { Unended end longest bytes.now searched.new }
    // Where the line goes on, all was searched.
    ensures all { IsErrOf result Short → searched.new ≡ length bytes.now }
{
    'bytes: for i in *searched..bytes.len() {
        let byte = bytes[i];
        if byte == end {
            *searched = i;
            return Ok((&bytes[..i], &bytes[i + 1..]));
        }
        if byte == 0 {
            return Err(Stop::Fault(Fault::ZeroByte));
        }
        if i >= longest {
            return Err(Stop::Fault(long));
        }
    }
    *searched = bytes.len();
    Err(Stop::Short)
}

/// The bytes before the first CR, and those behind the byte that follows it; searched as a line is.
#[tactic(auto, unfolding(crate::specs::Lines::head_at, crate::specs::Lines::behind_byte))]
pub(crate) fn head_of<'a>(
    bytes: &'a [u8],
    searched: &mut usize,
    longest: usize,
    long: Fault,
) -> Result<(&'a [u8], &'a [u8]), Stop>
    requires { Unended 13 longest bytes.now searched.old }
    ensures gives { Gives (λ x. (x.0.now, x.1.now)) result (head_at longest long bytes.now) }
    ensures searched { Unended 13 longest bytes.now searched.new }
{
    let (line, rest) = line_of(bytes, searched, b'\r', longest, long)?;
    match rest {
        [] => Err(Stop::Short),
        [_, behind @ ..] => Ok((line, behind)),
    }
}
