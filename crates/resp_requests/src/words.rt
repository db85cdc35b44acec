//! Inline requests: a line of words.
ghost use Rattle.std.specs.Prelude.{◌≡◌, ◌≤◌, ◌<◌, [], ◌∷◌, zero, false, length, IfOk, IfSome, Some, IsErrOf};
ghost use Rattle.resp_requests.specs.declared.stop.Stop.TheVariants.{Short};
ghost use Rattle.resp_requests.specs.Given.{Gives, Makes, texts};
ghost use Rattle.resp_requests.specs.Words.{is_space, ends_word, hex_digit, hex_both, escaped, between, plain, double, single, split, does, more, words_in, is_escaped_quote};
ghost use Rattle.resp_requests.specs.WordRuns.{put_before, worded};
ghost use Rattle.resp_requests.specs.WordParts.{place_of, QuoteSteps, GoesOnAs, EndsAs, ends_at};
ghost use Rattle.resp_requests.specs.Requests.{closed_words, inline_at};
ghost use Rattle.resp_requests.specs.Searches.{Unended};

use crate::fault::Fault;
use crate::limits::Limits;
use crate::line::line_of;
use crate::stop::Stop;
use std::alloc::Global;

fn is_space(byte: u8) -> bool
    ensures { result ≡ is_space byte }
{
    byte == b' ' || (9 <= byte && byte <= 13)
}

fn ends_word(byte: u8) -> bool
    ensures { result ≡ ends_word byte }
{
    byte == b' ' || byte == b'\t' || byte == b'\n' || byte == b'\r'
}

fn hex_digit(byte: u8) -> Option<u8>
    ensures value { result ≡ hex_digit byte }
    ensures small { IfSome result (λ n. n < 16) }
{
    match byte {
        b'0'..=b'9' => Some(byte - b'0'),
        b'a'..=b'f' => Some(byte - b'a' + 10),
        b'A'..=b'F' => Some(byte - b'A' + 10),
        _ => None,
    }
}

/// The byte that two hexadecimal digits write.
fn hex_byte(high: u8, low: u8) -> Option<u8>
    ensures { result ≡ hex_both (hex_digit high) (hex_digit low) }
{
    match (hex_digit(high), hex_digit(low)) {
        (Some(high), Some(low)) => Some(16 * high + low),
        _ => None,
    }
}

/// The byte that a letter stands for behind a backslash.
fn escaped(letter: u8) -> u8
    ensures { result ≡ escaped letter }
{
    match letter {
        b'n' => b'\n',
        b'r' => b'\r',
        b't' => b'\t',
        b'b' => 8,
        b'a' => 7,
        other => other,
    }
}

/// What is behind a closing quote: nothing, or a blank first.
#[tactic(auto, unfolding(crate::specs::Words::split))]
fn behind_quote(bytes: &[u8]) -> Result<&[u8], Stop>
    ensures double { Makes (λ rest. worded [] (split between zero rest.now)) result
        (split double zero (34 ∷ bytes.now)) }
    ensures single { Makes (λ rest. worded [] (split between zero rest.now)) result
        (split single zero (39 ∷ bytes.now)) }
    ensures fewer { IfOk result (λ rest. length rest.now ≤ length bytes.now) }
{
    match bytes {
        [byte, ..] if !is_space(*byte) => Err(Stop::Fault(Fault::OpenQuote)),
        _ => Ok(bytes),
    }
}

/// What is behind the backslash of a double quoted text, and the byte that it stands for.
#[tactic(auto, unfolding(crate::specs::Words::split))]
fn escape_of(bytes: &[u8]) -> Result<(u8, &[u8]), Stop>
    ensures made { Makes (λ x. does (more x.0) (split double zero x.1.now)) result
        (split double zero (92 ∷ bytes.now)) }
    ensures fewer { IfOk result (λ x. length x.1.now < length bytes.now) }
{
    match bytes {
        [] => Err(Stop::Fault(Fault::OpenQuote)),
        [letter, high, low, rest @ ..] => match hex_byte(*high, *low) {
            Some(byte) if *letter == b'x' => Ok((byte, rest)),
            _ => Ok((escaped(*letter), &bytes[1..])),
        },
        [letter, rest @ ..] => Ok((escaped(*letter), rest)),
    }
}

// The text goes on with a byte, or its quote closes.
enum Quoted<'a> {
    Byte(u8, &'a [u8]),
    Closed(&'a [u8]),
}

fn in_double(bytes: &[u8]) -> Result<Quoted, Stop>
    ensures { QuoteSteps double result bytes.now }
{
    match bytes {
        [] => Err(Stop::Fault(Fault::OpenQuote)),
        [b'"', behind @ ..] => Ok(Quoted::Closed(behind_quote(behind)?)),
        [b'\\', behind @ ..] => {
            let (byte, after) = escape_of(behind)?;
            Ok(Quoted::Byte(byte, after))
        }
        [byte, behind @ ..] => Ok(Quoted::Byte(*byte, behind)),
    }
}

fn is_escaped_quote(bytes: &[u8]) -> bool
    ensures { result ≡ is_escaped_quote bytes.now }
{
    match bytes {
        [first, second, ..] => *first == b'\\' && *second == b'\'',
        _ => false,
    }
}

fn in_single(bytes: &[u8]) -> Result<Quoted, Stop>
    ensures { QuoteSteps single result bytes.now }
{
    if is_escaped_quote(bytes) {
        return Ok(Quoted::Byte(b'\'', &bytes[2..]));
    }
    match bytes {
        [] => Err(Stop::Fault(Fault::OpenQuote)),
        [b'\'', behind @ ..] => Ok(Quoted::Closed(behind_quote(behind)?)),
        [byte, behind @ ..] => Ok(Quoted::Byte(*byte, behind)),
    }
}

#[derive(Clone, Copy)]
enum Quote {
    Double,
    Single,
}

fn in_quote(quote: Quote, bytes: &[u8]) -> Result<Quoted, Stop>
    ensures { QuoteSteps (place_of quote) result bytes.now }
{
    match quote {
        Quote::Double => in_double(bytes),
        Quote::Single => in_single(bytes),
    }
}

/// The rest of a quoted text is put behind the word; what is behind the quote is answered.
fn rest_of_quote<'a>(word: &mut Vec<u8>, quote: Quote, bytes: &'a [u8]) -> Result<&'a [u8], Stop>
    ensures words { Makes (λ rest. worded word.new.items (split between zero rest.now)) result
        (put_before word.old.items (split (place_of quote) zero bytes.now)) }
    ensures fewer { IfOk result (λ rest. length rest.now ≤ length bytes.now) }
{
    let mut rest = bytes;
    'bytes: loop {
        match in_quote(quote, rest)? {
            Quoted::Closed(behind) => return Ok(behind),
            Quoted::Byte(byte, behind) => {
                word.push(byte)?;
                rest = behind;
            }
        }
    }
}

// How a word goes on.
enum Next<'a> {
    Byte(u8, &'a [u8]),
    Quote(Quote, &'a [u8]),
    End,
}

fn in_plain(bytes: &[u8]) -> Next
    ensures goes { GoesOnAs result bytes.now }
    ensures ends { EndsAs result bytes.now }
{
    match bytes {
        [] => Next::End,
        [b'"', behind @ ..] => Next::Quote(Quote::Double, behind),
        [b'\'', behind @ ..] => Next::Quote(Quote::Single, behind),
        [byte, behind @ ..] => {
            if ends_word(*byte) {
                Next::End
            } else {
                Next::Byte(*byte, behind)
            }
        }
    }
}

/// The rest of a word is put behind it; what is behind the word is answered. A closing quote ends it.
fn rest_of_word<'a>(word: &mut Vec<u8>, bytes: &'a [u8]) -> Result<&'a [u8], Stop>
    ensures words { Makes (λ rest. worded word.new.items (split between zero rest.now)) result
        (put_before word.old.items (split plain zero bytes.now)) }
    ensures fewer { IfOk result (λ rest. length rest.now ≤ length bytes.now) }
    ensures some { IfOk result (λ rest. ends_at bytes.now ≡ false → length rest.now < length bytes.now) }
{
    let mut rest = bytes;
    'bytes: loop {
        match in_plain(rest) {
            Next::End => return Ok(rest),
            Next::Quote(quote, behind) => return rest_of_quote(word, quote, behind),
            Next::Byte(byte, behind) => {
                word.push(byte)?;
                rest = behind;
            }
        }
    }
}

/// The words of a line.
fn words_of(alloc: Global, line: &[u8]) -> Result<Vec<Vec<u8>>, Stop>
    ensures { Makes (λ words. Some (texts words.items)) result (words_in line.now) }
{
    let mut words = Vec::new(alloc);
    let mut rest = line;
    'words: loop {
        match rest {
            [] => return Ok(words),
            [byte, behind @ ..] if is_space(*byte) => rest = behind,
            _ => {
                let mut word = Vec::new(alloc);
                rest = rest_of_word(&mut word, rest)?;
                words.push(word)?;
            }
        }
    }
}

/// The words of the line at the front of the bytes, and what is behind its LF. The first `searched` bytes are
/// not searched again, and it leaves how many were.
#[tactic(auto, unfolding(crate::specs::Requests::inline_at))]
pub(crate) fn inline_of<'a>(
    alloc: Global,
    bytes: &'a [u8],
    searched: &mut usize,
    limits: Limits,
) -> Result<(Vec<Vec<u8>>, &'a [u8]), Stop>
    requires { Unended 10 limits.longest_line bytes.now searched.old }
    ensures gives { Gives (λ x. (texts x.0.items, x.1.now)) result (inline_at limits bytes.now) }
    ensures searched { Unended 10 limits.longest_line bytes.now searched.new }
    ensures all { IsErrOf result Short → searched.new ≡ length bytes.now }
{
    let (line, rest) = line_of(
        bytes,
        searched,
        b'\n',
        limits.longest_line,
        Fault::LongInline,
    )?;
    Ok((words_of(alloc, line)?, rest))
}
