//! Replies as `redis-cli` prints them, to a terminal or raw, and refusals for a person.
use anyhow::Result;
use cluster_client::{NodeAddress, RedisError, ServerError, Value};
use std::alloc::Global;
use std::io::Write;

/// How replies are printed.
#[derive(Clone, Copy, Debug, PartialEq, Eq)]
pub(crate) enum Style {
    /// With types, quotes and numbered lists.
    Typed,
    /// The bytes alone.
    Raw,
}

/// A value that is still to be printed: what stands before it, how far its further lines are moved
/// in, and what stands behind it.
#[derive(Drop)]
struct Todo<'a> {
    before: String,
    margin: usize,
    value: &'a Value,
    after: &'static str,
}

/// Appends a reply and a line's end.
pub(crate) fn reply(
    alloc: Global,
    output: &mut Vec<u8>,
    style: Style,
    value: &Value,
) -> Result<()> {
    let mut todo = Vec::new(alloc);
    todo.push(Todo {
        before: String::new(alloc),
        margin: 0,
        value,
        after: "\n",
    })?;
    for _ in 0..u64::MAX {
        let Some(next) = todo.pop() else {
            break;
        };
        output.extend_from_slice(next.before.as_bytes())?;
        print_next(alloc, output, style, &mut todo, next)?;
    }
    Ok(())
}

fn print_next<'a>(
    alloc: Global,
    output: &mut Vec<u8>,
    style: Style,
    todo: &mut Vec<Todo<'a>>,
    next: Todo<'a>,
) -> Result<()> {
    match next.value {
        Value::Array(list) | Value::Push { items: list, .. } if !list.is_empty() => {
            push_items(alloc, style, todo, &next, list, ')')
        }
        Value::Set(list) if !list.is_empty() => push_items(alloc, style, todo, &next, list, '~'),
        Value::Map(pairs) if !pairs.is_empty() => push_pairs(alloc, style, todo, &next, pairs),
        Value::Attribute { inner, .. } => {
            let Todo { margin, after, .. } = next;
            let before = String::new(alloc);
            let value = inner;
            todo.push(Todo {
                before,
                margin,
                value,
                after,
            })?;
            Ok(())
        }
        value => {
            match style {
                Style::Typed => print_typed(output, value)?,
                Style::Raw => print_raw(output, value)?,
            }
            output.extend_from_slice(next.after.as_bytes())?;
            Ok(())
        }
    }
}

/// What stands before item `place` of `count`: nothing in the raw style, else its number, and the
/// margin unless it stands on its list's own line.
fn label(
    alloc: Global,
    style: Style,
    margin: usize,
    place: usize,
    count: usize,
    mark: char,
) -> Result<String> {
    if style == Style::Raw {
        return Ok(String::new(alloc));
    }
    let margin = if place == 0 { 0 } else { margin };
    let width = width_of(alloc, count)?;
    let number = place.saturating_add(1);
    Ok(format!(in alloc; "{:margin$}{number:>width$}{mark} ", "")?)
}

/// How many digits a number has.
fn width_of(alloc: Global, number: usize) -> Result<usize> {
    Ok(number.to_string(alloc)?.len())
}

/// The margin of the `count` items of a list: their labels stand in front of them.
fn margin_in(alloc: Global, list: &Todo<'_>, count: usize) -> Result<usize> {
    let width = width_of(alloc, count)?;
    Ok(list.margin.saturating_add(width).saturating_add(2))
}

/// What stands behind item `place` of `count`, where this stands behind the list.
fn behind(place: usize, count: usize, after: &'static str) -> &'static str {
    if place.saturating_add(1) == count {
        after
    } else {
        "\n"
    }
}

/// Puts the items of a list where the first is printed next.
fn push_items<'a>(
    alloc: Global,
    style: Style,
    todo: &mut Vec<Todo<'a>>,
    list: &Todo<'a>,
    items: &'a [Value],
    mark: char,
) -> Result<()> {
    let count = items.len();
    let margin = margin_in(alloc, list, count)?;
    for (place, value) in items.iter().enumerate().rev() {
        todo.push(Todo {
            before: label(alloc, style, list.margin, place, count, mark)?,
            margin,
            value,
            after: behind(place, count, list.after),
        })?;
    }
    Ok(())
}

/// Puts the pairs of a map where the first is printed next.
fn push_pairs<'a>(
    alloc: Global,
    style: Style,
    todo: &mut Vec<Todo<'a>>,
    map: &Todo<'a>,
    pairs: &'a [(Value, Value)],
) -> Result<()> {
    let count = pairs.len();
    let margin = margin_in(alloc, map, count)?;
    for (place, pair) in pairs.iter().enumerate().rev() {
        todo.push(Todo {
            before: String::new(alloc),
            margin,
            value: &pair.1,
            after: behind(place, count, map.after),
        })?;
        todo.push(Todo {
            before: label(alloc, style, map.margin, place, count, '#')?,
            margin,
            value: &pair.0,
            after: if style == Style::Raw { " " } else { " => " },
        })?;
    }
    Ok(())
}

/// A value without items, as `redis-cli` prints it to a terminal.
fn print_typed(output: &mut Vec<u8>, value: &Value) -> Result<()> {
    match value {
        Value::Nil => write!(output, "(nil)")?,
        Value::Int(number) => write!(output, "(integer) {number}")?,
        Value::BulkString(bytes) => print_quoted(output, bytes)?,
        Value::Array(_) => write!(output, "(empty array)")?,
        Value::Set(_) => write!(output, "(empty set)")?,
        Value::Map(_) => write!(output, "(empty hash)")?,
        Value::Push { .. } => write!(output, "(empty push)")?,
        Value::Double(text) => write!(output, "(double) {text}")?,
        Value::ServerError(error) => write!(output, "(error) {error}")?,
        _ => print_raw(output, value)?,
    }
    Ok(())
}

/// A value without items, in its bytes.
fn print_raw(output: &mut Vec<u8>, value: &Value) -> Result<()> {
    match value {
        Value::Okay => write!(output, "OK")?,
        Value::Int(number) => write!(output, "{number}")?,
        Value::SimpleString(text) | Value::Double(text) => write!(output, "{text}")?,
        Value::VerbatimString { text, .. } => write!(output, "{text}")?,
        Value::BulkString(bytes) | Value::BigNumber(bytes) => output.extend_from_slice(bytes)?,
        Value::Boolean(holds) => write!(output, "({holds})")?,
        Value::ServerError(error) => writeln!(output, "{error}")?,
        _ => {}
    }
    Ok(())
}

fn print_quoted(output: &mut Vec<u8>, bytes: &[u8]) -> Result<()> {
    output.push(b'"')?;
    for byte in bytes {
        print_quoted_byte(output, *byte)?;
    }
    output.push(b'"')?;
    Ok(())
}

fn print_quoted_byte(output: &mut Vec<u8>, byte: u8) -> Result<()> {
    match byte {
        b'\\' => write!(output, "\\\\")?,
        b'"' => write!(output, "\\\"")?,
        b'\n' => write!(output, "\\n")?,
        b'\r' => write!(output, "\\r")?,
        b'\t' => write!(output, "\\t")?,
        7 => write!(output, "\\a")?,
        8 => write!(output, "\\b")?,
        0x20..=0x7e => output.push(byte)?,
        _ => write!(output, "\\x{byte:02x}")?,
    }
    Ok(())
}

/// Appends a refusal: a server's error as `redis-cli` prints it, any other with its number and kind,
/// and the node that was asked last.
pub(crate) fn refusal(
    output: &mut Vec<u8>,
    style: Style,
    error: &RedisError,
    node: Option<&NodeAddress>,
) -> Result<()> {
    let begin = if style == Style::Raw { "" } else { "(error) " };
    let end = if style == Style::Raw { "\n" } else { "" };
    match (error.code(), error.detail()) {
        (Some(code), Some(detail)) => writeln!(output, "{begin}{code} {detail}{end}")?,
        (Some(code), None) => writeln!(output, "{begin}{code}{end}")?,
        (None, _) => {
            write!(output, "(refused) {error}")?;
            if let Some(node) = node {
                write!(output, "; last asked {node}")?;
            }
            writeln!(output, "")?;
        }
    }
    Ok(())
}

/// Appends how many errors servers answered to a pipeline, and each behind the number from 1 of its
/// command.
pub(crate) fn errors(
    output: &mut Vec<u8>,
    style: Style,
    errors: &[(usize, ServerError)],
) -> Result<()> {
    let begin = if style == Style::Raw { "" } else { "(error) " };
    writeln!(output, "(errors) {}", errors.len())?;
    for (position, error) in errors {
        writeln!(output, "{}) {begin}{error}", position.saturating_add(1))?;
    }
    Ok(())
}
