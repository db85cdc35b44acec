//! A line of a session: its words and what they say.
ghost use Rattle.std.specs.Prelude.{◌≡◌, ◌<◌, ◌∷◌, [], IfOk, IfSome, MatchOption, Some, None, map, option_map, option_and_then, length};
ghost use Rattle.std.specs.Result.{result_ok};
ghost use Rattle.hex.specs.Hex.{decode_of};
ghost use Rattle.cluster_routing.specs.Info.{texts};
ghost use Rattle.cluster_client.specs.Shown.{streams_in};
ghost use Rattle.cluster_session.specs.Lines.{is_skipped, said_by_text, said_by_words, said_by, name_line, node_line, fault_line, budget_line, levels_line, refresh_line, query_line, order_line, fan_line, at_line, command_line, xrange_line, xread_line, alone, command_words, each_read, bytes_word, number_word, from_one, piece_size, budget_size, levels_size, access_word, between_commas, pieces, streams_of, streams_word, command_of};
ghost use Rattle.cluster_session.specs.LinesRead.{Reads, access_in, meaning_in, words_in};
ghost use Rattle.cluster_session.specs.Script.{is_run, said_by_line};

use crate::session::calls;
use crate::session::levels::Levels;
use crate::session::script::{Access, Line};
use cluster_client::{Call, Cmd, StreamReadOptions};
use hex::FromHexError;
use std::alloc::{AllocError, AllocFailed, Global};

// The most bytes that a line may let one read give.
const LARGEST_PIECE: u64 = 4_294_967_295;

// The greatest limit of levels that a line may set.
const MOST_LEVELS: u64 = 512;

/// Why a line is not taken.
#[derive(Clone, Copy, Debug, PartialEq, Eq)]
pub(super) enum LineError {
    /// It is no line of the language, or not at this place.
    Bad,
    /// Memory was refused.
    Memory,
}

impl From<AllocError> for LineError {
    ghost use Rattle.std.specs.Prelude.{◌≡◌};
    ghost use Rattle.cluster_session.specs.declared.session.lines.LineError.TheVariants.{Memory};

    ghost from_gives = { λ _ e. e ≡ Memory };

    fn from(_e: AllocError) -> LineError {
        LineError::Memory
    }
}

impl<T: Drop> From<AllocFailed<T>> for LineError {
    ghost use Rattle.std.specs.Prelude.{◌≡◌};
    ghost use Rattle.cluster_session.specs.declared.session.lines.LineError.TheVariants.{Memory};

    ghost from_gives = { λ _ e. e ≡ Memory };

    fn from(_e: AllocFailed<T>) -> LineError {
        LineError::Memory
    }
}

/// What a line says; `None` for an empty line and for a comment.
pub(super) fn read_line(alloc: Global, line: &[u8]) -> Result<Option<Line>, LineError>
    ensures { Reads (λ said. option_map meaning_in said) (said_by_line line.now) result }
{
    if is_skipped(line) {
        return Ok(None);
    }
    match str::from_utf8(line) {
        Ok(text) => Ok(Some(read_text(alloc, text)?)),
        Err(_) => Err(LineError::Bad),
    }
}

/// Whether the line says nothing: it is empty, or a comment.
fn is_skipped(line: &[u8]) -> bool
    ensures { result ≡ is_skipped line.now }
{
    matches!(line, [] | [b'#', ..])
}

/// Whether the line ends a pipeline, or a transaction.
pub(super) fn is_run(line: &[u8]) -> bool
    ensures { result ≡ is_run line.now }
{
    line == b"run".as_slice()
}

fn read_text(alloc: Global, text: &str) -> Result<Line, LineError>
    ensures { Reads meaning_in (said_by_text text.now) result }
{
    match text.strip_prefix("readonly ") {
        Some(name) => read_name(alloc, name),
        None => read_words(alloc, pieces(alloc, text, ' ')?.as_slice()),
    }
}

/// The name that is the rest of a line.
fn read_name(alloc: Global, rest: &str) -> Result<Line, LineError>
    ensures { Reads meaning_in (name_line rest.now) result }
{
    if rest.is_empty() {
        return Err(LineError::Bad);
    }
    Ok(Line::ReadOnly(Vec::from_slice(alloc, rest.as_bytes())?))
}

fn read_words(alloc: Global, words: &[&str]) -> Result<Line, LineError>
    ensures { Reads meaning_in (said_by_words (words_in words.now)) result }
{
    match words {
        [] => Err(LineError::Bad),
        [word, args @ ..] => read_form(alloc, word, args),
    }
}

/// The line of this form, by its first word.
#[tactic(auto, unfolding(crate::specs::Lines::said_by))]
fn read_form(alloc: Global, word: &str, args: &[&str]) -> Result<Line, LineError>
    ensures { Reads meaning_in (said_by word.now (words_in args.now)) result }
{
    match word {
        "node" => read_node(alloc, args),
        "fault" => read_fault(alloc, args),
        "budget" => read_budget(args),
        "levels" => read_levels(args),
        "refresh" => read_refresh(alloc, args),
        "query" => read_query(alloc, args),
        "order" => read_order(alloc, args),
        "fan" => read_fan(alloc, args),
        "at" => read_at(alloc, args),
        "pipe" => read_alone(Line::Pipe, args),
        "each" => read_alone(Line::Each, args),
        "multi" => read_alone(Line::Multi, args),
        "cmd" => read_command(alloc, false, args),
        "skip" => read_command(alloc, true, args),
        "run" => read_alone(Line::Run, args),
        "xrange" => read_xrange(alloc, args),
        "xread" => read_xread(alloc, args),
        _ => Err(LineError::Bad),
    }
}

fn read_node(alloc: Global, args: &[&str]) -> Result<Line, LineError>
    ensures { Reads meaning_in (node_line (words_in args.now)) result }
{
    match args {
        [at, piece, bytes] => {
            let address = calls::address(alloc, at)?;
            let piece = piece_of(piece)?;
            Ok(Line::Node(address, piece, bytes_of(alloc, bytes)?))
        }
        _ => Err(LineError::Bad),
    }
}

fn read_fault(alloc: Global, args: &[&str]) -> Result<Line, LineError>
    ensures { Reads meaning_in (fault_line (words_in args.now)) result }
{
    match args {
        [at, access, number] => {
            let address = calls::address(alloc, at)?;
            let access = access_of(access)?;
            Ok(Line::Fault(address, access, count_of(number)?))
        }
        _ => Err(LineError::Bad),
    }
}

fn read_budget(args: &[&str]) -> Result<Line, LineError>
    ensures { Reads meaning_in (budget_line (words_in args.now)) result }
{
    match args {
        [budget] => Ok(Line::Budget(budget_of(budget)?)),
        _ => Err(LineError::Bad),
    }
}

fn read_levels(args: &[&str]) -> Result<Line, LineError>
    ensures { Reads meaning_in (levels_line (words_in args.now)) result }
{
    match args {
        [levels] => Ok(Line::Levels(levels_of(levels)?)),
        _ => Err(LineError::Bad),
    }
}

fn read_refresh(alloc: Global, args: &[&str]) -> Result<Line, LineError>
    ensures { Reads meaning_in (refresh_line (words_in args.now)) result }
{
    match args {
        [at] => Ok(Line::Call(Call::Refresh(calls::address(alloc, at)?))),
        _ => Err(LineError::Bad),
    }
}

fn read_query(alloc: Global, args: &[&str]) -> Result<Line, LineError>
    ensures { Reads meaning_in (query_line (words_in args.now)) result }
{
    match args {
        [number, args @ ..] => {
            let cmd = command_of(alloc, args)?;
            let number = number_of(number)?;
            Ok(Line::Call(Call::Query { cmd, number }))
        }
        _ => Err(LineError::Bad),
    }
}

fn read_order(alloc: Global, args: &[&str]) -> Result<Line, LineError>
    ensures { Reads meaning_in (order_line (words_in args.now)) result }
{
    match args {
        [order, args @ ..] => {
            let cmd = command_of(alloc, args)?;
            let order = order_of(alloc, order)?;
            Ok(Line::Call(Call::Ordered {
                cmd,
                order,
                number: 0,
            }))
        }
        _ => Err(LineError::Bad),
    }
}

fn read_fan(alloc: Global, args: &[&str]) -> Result<Line, LineError>
    ensures { Reads meaning_in (fan_line (words_in args.now)) result }
{
    Ok(Line::Call(Call::FanOut(command_of(alloc, args)?)))
}

fn read_at(alloc: Global, args: &[&str]) -> Result<Line, LineError>
    ensures { Reads meaning_in (at_line (words_in args.now)) result }
{
    match args {
        [at, args @ ..] => {
            let cmd = command_of(alloc, args)?;
            let node = calls::address(alloc, at)?;
            Ok(Line::Call(Call::At { node, cmd }))
        }
        _ => Err(LineError::Bad),
    }
}

fn read_command(alloc: Global, ignored: bool, args: &[&str]) -> Result<Line, LineError>
    ensures { Reads meaning_in (command_line ignored (words_in args.now)) result }
{
    Ok(Line::Command {
        command: command_of(alloc, args)?,
        ignored,
    })
}

fn read_xrange(alloc: Global, args: &[&str]) -> Result<Line, LineError>
    ensures { Reads meaning_in (xrange_line (words_in args.now)) result }
{
    match args {
        [key, start, end] => {
            let key = bytes_of(alloc, key)?;
            let start = bytes_of(alloc, start)?;
            let end = bytes_of(alloc, end)?;
            Ok(Line::Call(Call::Xrange { key, start, end }))
        }
        _ => Err(LineError::Bad),
    }
}

fn read_xread(alloc: Global, args: &[&str]) -> Result<Line, LineError>
    ensures { Reads meaning_in (xread_line (words_in args.now)) result }
{
    match args {
        [keys, ids] => Ok(Line::Call(Call::Xread {
            streams: streams_of(alloc, keys, ids)?,
            options: StreamReadOptions::empty(),
        })),
        _ => Err(LineError::Bad),
    }
}

/// A line of one word.
fn read_alone(line: Line, args: &[&str]) -> Result<Line, LineError>
    ensures { Reads meaning_in (alone (meaning_in line) (words_in args.now)) result }
{
    match args {
        [] => Ok(line),
        _ => Err(LineError::Bad),
    }
}

/// The pieces of a text between the separators.
fn pieces(alloc: Global, text: &str, separator: char) -> Result<Vec<&str>, AllocError>
    requires { separator < 128 }
    ensures { IfOk result (λ v. words_in v.items ≡ pieces separator text.now) }
{
    let mut pieces = Vec::new(alloc);
    let mut rest = text;
    'pieces: while let Some((piece, later)) = cut(rest, separator) {
        pieces.push(piece)?;
        rest = later;
    }
    pieces.push(rest)?;
    Ok(pieces)
}

/// The text before the first separator, and the text behind it.
fn cut(text: &str, separator: char) -> Option<(&str, &str)>
    requires { separator < 128 }
    ensures pieces { MatchOption result (pieces separator text.now ≡ text.now ∷ [])
        (λ parts. pieces separator text.now ≡ parts.0.now ∷ pieces separator parts.1.now) }
    ensures shorter { IfSome result (λ parts. length parts.1.now < length text.now) }
{
    text.split_once(separator)
}

fn number_in(word: &str) -> Option<u64>
    ensures { result ≡ number_word word.now }
{
    word.parse::<u64>().ok()
}

fn number_of(word: &str) -> Result<u64, LineError>
    ensures { Reads (λ n. n) (number_word word.now) result }
{
    match number_in(word) {
        Some(number) => Ok(number),
        None => Err(LineError::Bad),
    }
}

/// A number from 1.
fn count_of(word: &str) -> Result<u64, LineError>
    ensures { Reads (λ n. n) (option_and_then from_one (number_word word.now)) result }
{
    match number_of(word)? {
        0 => Err(LineError::Bad),
        number => Ok(number),
    }
}

/// The numbers of parts, with commas between them.
fn order_of(alloc: Global, word: &str) -> Result<Vec<usize>, LineError>
    ensures { Reads (λ v. v.items) (between_commas number_word word.now) result }
{
    parts_of(alloc, pieces(alloc, word, ',')?.as_slice())
}

fn parts_of(alloc: Global, words: &[&str]) -> Result<Vec<usize>, LineError>
    ensures { Reads (λ v. v.items) (each_read number_word (words_in words.now)) result }
{
    let mut parts = Vec::new(alloc);
    for word in words {
        parts.push(number_of(word)? as usize)?;
    }
    Ok(parts)
}

fn access_of(word: &str) -> Result<Access, LineError>
    ensures { Reads access_in (access_word word.now) result }
{
    match word {
        "read" => Ok(Access::Read),
        "write" => Ok(Access::Write),
        _ => Err(LineError::Bad),
    }
}

fn piece_of(word: &str) -> Result<usize, LineError>
    ensures { Reads (λ n. n) (option_and_then piece_size (number_word word.now)) result }
{
    match number_of(word)? {
        piece @ 1..=LARGEST_PIECE => Ok(piece as usize),
        _ => Err(LineError::Bad),
    }
}

fn budget_of(word: &str) -> Result<u16, LineError>
    ensures { Reads (λ n. n) (option_and_then budget_size (number_word word.now)) result }
{
    u16::try_from(number_of(word)?).map_err(|_| LineError::Bad)
}

fn levels_of(word: &str) -> Result<Levels, LineError>
    ensures { Reads (λ levels. levels.limit) (option_and_then levels_size (number_word word.now)) result }
{
    match number_of(word)? {
        limit @ 1..=MOST_LEVELS => Ok(Levels {
            limit: limit as u16,
        }),
        _ => Err(LineError::Bad),
    }
}

/// The bytes of a word: pairs of hexadecimal digits in any case, or `-` for no bytes.
fn bytes_of(alloc: Global, word: &str) -> Result<Vec<u8>, LineError>
    ensures { Reads (λ v. v.items) (bytes_word word.now) result }
{
    match word {
        "" => Err(LineError::Bad),
        "-" => Ok(Vec::new(alloc)),
        _ => decode(alloc, word),
    }
}

fn decode(alloc: Global, word: &str) -> Result<Vec<u8>, LineError>
    ensures { Reads (λ v. v.items) (result_ok (decode_of word.now)) result }
{
    match hex::decode(alloc, word) {
        Ok(bytes) => Ok(bytes),
        Err(FromHexError::OutOfMemory) => Err(LineError::Memory),
        Err(_) => Err(LineError::Bad),
    }
}

/// The command of these arguments, one at least.
fn command_of(alloc: Global, args: &[&str]) -> Result<Cmd, LineError>
    ensures { Reads (λ c. c) (command_words (words_in args.now)) result }
{
    if args.is_empty() {
        return Err(LineError::Bad);
    }
    command_with(alloc, args)
}

fn command_with(alloc: Global, args: &[&str]) -> Result<Cmd, LineError>
    ensures { Reads (λ c. c) (option_map command_of (each_read bytes_word (words_in args.now))) result }
{
    let mut command = Cmd::new(alloc);
    for word in args {
        command.arg(bytes_of(alloc, word)?.as_slice())?;
    }
    Ok(command)
}

/// The texts of a word, with commas between them.
fn texts_of(alloc: Global, word: &str) -> Result<Vec<Vec<u8>>, LineError>
    ensures { Reads (λ v. texts v.items) (between_commas bytes_word word.now) result }
{
    texts_in(alloc, pieces(alloc, word, ',')?.as_slice())
}

fn texts_in(alloc: Global, words: &[&str]) -> Result<Vec<Vec<u8>>, LineError>
    ensures { Reads (λ v. texts v.items) (each_read bytes_word (words_in words.now)) result }
{
    let mut texts = Vec::new(alloc);
    for word in words {
        texts.push(bytes_of(alloc, word)?)?;
    }
    Ok(texts)
}

/// The keys of streams, and for each the id behind which it is read.
fn streams_of(alloc: Global, keys: &str, ids: &str) -> Result<Vec<(Vec<u8>, Vec<u8>)>, LineError>
    ensures { Reads (λ v. streams_in v.items) (streams_word keys.now ids.now) result }
{
    let keys = texts_of(alloc, keys)?;
    let ids = texts_of(alloc, ids)?;
    paired(alloc, keys, ids)
}

fn paired(
    alloc: Global,
    keys: Vec<Vec<u8>>,
    ids: Vec<Vec<u8>>,
) -> Result<Vec<(Vec<u8>, Vec<u8>)>, LineError>
    ensures { Reads (λ v. streams_in v.items) (streams_of (texts keys.items) (texts ids.items)) result }
{
    let mut streams = Vec::with_capacity(alloc, keys.len())?;
    let mut ids = ids.into_iter();
    for key in keys {
        match ids.next() {
            Some(id) => streams.push((key, id))?,
            None => return Err(LineError::Bad),
        }
    }
    match ids.next() {
        Some(_) => Err(LineError::Bad),
        None => Ok(streams),
    }
}
