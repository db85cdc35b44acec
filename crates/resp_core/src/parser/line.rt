//! Lines, and what is read in them.
ghost use Rattle.std.specs.Prelude.{◌≡◌, ◌==◌, ◌&&◌, ◌≤◌, ◌<◌, ◌^◌, true, pos, length, take, Ok, Err, Some, None, IfSome};
ghost use Rattle.resp_core.specs.Reading.{Gives, Makes, short, line_at};
ghost use Rattle.resp_core.specs.LineEnds.{LineEnds, EndsBehind, returned_at};
ghost use Rattle.resp_core.specs.Table.{number};
ghost use Rattle.std.specs.Str.{is_utf8};

use crate::parser::stop::Stop;
use memchr::memchr;

/// The bytes up to the first CR LF, and those behind it.
pub(crate) fn line_of(bytes: &[u8]) -> Result<(&[u8], &[u8]), Stop>
    ensures { Gives (λ x. (x.0.now, x.1.now)) result (line_at bytes.now) }
{
    for i in 0..bytes.len() {
        if i + 1 < bytes.len() && is_crlf(bytes[i], bytes[i + 1]) {
            return Ok((&bytes[..i], &bytes[i + 2..]));
        }
    }
    Err(Stop::Short)
}

/// Where the search for the end of a line came to.
#[derive(Clone, Copy, Debug)]
pub(crate) enum LineEnd {
    /// The length of the line.
    At(usize),
    /// There is no end yet, and whether the last byte is a CR.
    GoesOn(bool),
}

/// The end of the line at the front; it is not in the first `searched` bytes.
///
/// `after_return` says whether the last of these is a CR, so that none is looked at again.
pub(crate) fn line_end(bytes: &[u8], searched: usize, after_return: bool) -> LineEnd
    requires searched { line_at (take searched bytes.now) ≡ Err short }
    requires within { searched ≤ length bytes.now }
    requires returned { after_return ≡ returned_at bytes.now searched }
    ensures ends { LineEnds result bytes.now }
    ensures later { EndsBehind result searched }
{
    let mut from = searched;
    let mut after_return = after_return;
    'feeds: while let Some(behind) = memchr(b'\n', &bytes[from..]) {
        let feed = from + behind;
        if is_after_return(bytes, from, after_return, feed) {
            return LineEnd::At(feed - 1);
        }
        from = feed + 1;
        after_return = false;
    }
    LineEnd::GoesOn(is_after_return(bytes, from, after_return, bytes.len()))
}

/// Whether the byte before `at` is a CR; `after_return` says it of the one before `from`.
fn is_after_return(bytes: &[u8], from: usize, after_return: bool, at: usize) -> bool
    requires order { from ≤ at }
    requires within { at ≤ length bytes.now }
    requires returned { after_return ≡ returned_at bytes.now from }
    ensures { result ≡ returned_at bytes.now at }
{
    if at == from {
        after_return
    } else {
        bytes[at - 1] == b'\r'
    }
}

fn is_crlf(first: u8, second: u8) -> bool
    ensures { result ≡ (first == 13 && second == 10) }
{
    first == b'\r' && second == b'\n'
}

/// The number that the line holds.
#[tactic(auto, using(crate::proofs::Numbers::number_is))]
pub(crate) fn number_of(line: &str) -> Option<i64>
    ensures { result ≡ number line.now }
{
    line.trim().parse::<i64>().ok()
}

/// The number of a line of 1 to 18 digits alone, which needs no trimming.
pub(crate) fn plain_number(line: &[u8]) -> Option<u64>
    ensures text { IfSome result (λ n. is_utf8 line.now ≡ true) }
    ensures number { IfSome result (λ n. number line.now ≡ Some (pos n)) }
    ensures bound { IfSome result (λ n. n < 2 ^ 63) }
{
    let digits = line.len();
    if digits == 0 || digits > 18 {
        return None;
    }
    let mut value = 0u64;
    'digits: for i in 0..digits {
        let byte = line[i];
        if !byte.is_ascii_digit() {
            return None;
        }
        value = value * 10 + (byte - b'0') as u64;
    }
    Some(value)
}
