//! What has no parts, as bytes.
//!
//! Where memory is refused, some more bytes stand behind those of the buffer.
ghost use Rattle.std.specs.Prelude.{◌≡◌, ◌++◌, ◌∷◌, suc, length};
ghost use Rattle.resp_core.specs.Printed.{joined};
ghost use Rattle.resp_core.specs.View.{error_text, format_view};
ghost use Rattle.std.specs.List.{list_all};
ghost use Rattle.resp_core.specs.Written.{Appends, line_text, count_text, counted_text, bulk_text, nil_text, simple_text, boolean_text, double_text, big_text, verbatim_text, failed_text, is_inner, spaced, map_head, set_head, push_head};
ghost use Rattle.std.specs.Fmt.{signed_decimal};

use crate::errors::ServerError;
use crate::value::VerbatimFormat;
use crate::value::write::Protocol;
use crate::value::write::line_test::{
    is_double_line, is_inner, is_one_line, is_text_line, is_within_a_line,
};
use itoa::Buffer;
use std::alloc::AllocError;

/// A type byte, a line, and its end.
fn put_line(out: &mut Vec<u8>, mark: u8, line: &[u8]) -> Result<(), AllocError>
    ensures { Appends out.old.items out.new.items (line_text mark line.now) result }
{
    out.extend_from_slice(&[mark])?;
    out.extend_from_slice(line)?;
    out.extend_from_slice(b"\r\n")
}

pub(super) fn put_count(out: &mut Vec<u8>, mark: u8, count: usize) -> Result<(), AllocError>
    ensures { Appends out.old.items out.new.items (count_text mark count) result }
{
    put_line(out, mark, Buffer::new().format(count).as_bytes())
}

/// A count that may be past what a `usize` holds.
fn put_wide_count(out: &mut Vec<u8>, mark: u8, count: u128) -> Result<(), AllocError>
    ensures { Appends out.old.items out.new.items (count_text mark count) result }
{
    put_line(out, mark, Buffer::new().format(count).as_bytes())
}

#[inline(never)]
pub(super) fn put_number(out: &mut Vec<u8>, number: i64) -> Result<(), AllocError>
    ensures { Appends out.old.items out.new.items (line_text 58 (signed_decimal number)) result }
{
    put_line(out, b':', Buffer::new().format(number).as_bytes())
}

#[inline(never)]
pub(super) fn put_bulk(out: &mut Vec<u8>, bytes: &[u8]) -> Result<(), AllocError>
    ensures { Appends out.old.items out.new.items (bulk_text bytes.now) result }
{
    put_count(out, b'$', bytes.len())?;
    out.extend_from_slice(bytes)?;
    out.extend_from_slice(b"\r\n")
}

#[inline(never)]
pub(super) fn put_nil(out: &mut Vec<u8>, protocol: Protocol) -> Result<(), AllocError>
    ensures { Appends out.old.items out.new.items (nil_text protocol) result }
{
    match protocol {
        Protocol::Resp2 => out.extend_from_slice(b"$-1\r\n"),
        Protocol::Resp3 => out.extend_from_slice(b"_\r\n"),
    }
}

#[inline(never)]
pub(super) fn put_simple(out: &mut Vec<u8>, text: &str) -> Result<(), AllocError>
    ensures { Appends out.old.items out.new.items (simple_text text.now) result }
{
    if is_one_line(text.as_bytes()) {
        put_line(out, b'+', text.as_bytes())
    } else {
        put_bulk(out, text.as_bytes())
    }
}

#[inline(never)]
pub(super) fn put_boolean(
    out: &mut Vec<u8>,
    protocol: Protocol,
    truth: bool,
) -> Result<(), AllocError>
    ensures { Appends out.old.items out.new.items (boolean_text protocol truth) result }
{
    match protocol {
        Protocol::Resp2 => {
            if truth {
                out.extend_from_slice(b":1\r\n")
            } else {
                out.extend_from_slice(b":0\r\n")
            }
        }
        Protocol::Resp3 => {
            if truth {
                out.extend_from_slice(b"#t\r\n")
            } else {
                out.extend_from_slice(b"#f\r\n")
            }
        }
    }
}

#[inline(never)]
pub(super) fn put_double(
    out: &mut Vec<u8>,
    protocol: Protocol,
    text: &str,
) -> Result<(), AllocError>
    ensures { Appends out.old.items out.new.items (double_text protocol text.now) result }
{
    match protocol {
        Protocol::Resp2 => put_bulk(out, text.as_bytes()),
        Protocol::Resp3 => {
            if is_double_line(text) {
                put_line(out, b',', text.as_bytes())
            } else {
                put_bulk(out, text.as_bytes())
            }
        }
    }
}

#[inline(never)]
pub(super) fn put_big(out: &mut Vec<u8>, protocol: Protocol, bytes: &[u8]) -> Result<(), AllocError>
    ensures { Appends out.old.items out.new.items (big_text protocol bytes.now) result }
{
    match protocol {
        Protocol::Resp2 => put_bulk(out, bytes),
        Protocol::Resp3 => {
            if is_text_line(bytes) {
                put_line(out, b'(', bytes)
            } else {
                put_bulk(out, bytes)
            }
        }
    }
}

/// The number of the bytes of a format, a colon and a text.
#[tactic(auto, using(crate::proofs::WrittenTexts::marked_up_length))]
fn marked_up_len(format: &str, text: &str) -> u128
    ensures { result ≡ length (format.now ++ (58 ∷ text.now)) }
{
    format.len() as u128 + text.len() as u128 + 1
}

fn put_marked_up(out: &mut Vec<u8>, format: &str, text: &str) -> Result<(), AllocError>
    ensures { Appends out.old.items out.new.items
        (counted_text 61 (format.now ++ (58 ∷ text.now))) result }
{
    put_wide_count(out, b'=', marked_up_len(format, text))?;
    out.extend_from_slice(format.as_bytes())?;
    out.extend_from_slice(b":")?;
    out.extend_from_slice(text.as_bytes())?;
    out.extend_from_slice(b"\r\n")
}

#[inline(never)]
pub(super) fn put_verbatim(
    out: &mut Vec<u8>,
    protocol: Protocol,
    format: &VerbatimFormat,
    text: &str,
) -> Result<(), AllocError>
    ensures { Appends out.old.items out.new.items
        (verbatim_text protocol (format_view format.now) text.now) result }
{
    match protocol {
        Protocol::Resp2 => put_bulk(out, text.as_bytes()),
        Protocol::Resp3 => put_marked_up(out, format.as_str(), text),
    }
}

/// The text that the server sent.
fn put_text(out: &mut Vec<u8>, error: &ServerError) -> Result<(), AllocError>
    ensures { Appends out.old.items out.new.items (joined (error_text error.now)) result }
{
    out.extend_from_slice(error.code.as_bytes())?;
    if let Some(detail) = &error.detail {
        out.extend_from_slice(b" ")?;
        out.extend_from_slice(detail.as_bytes())?;
    }
    Ok(())
}

/// The number of the bytes of that text.
#[tactic(auto, using(crate::proofs::WrittenTexts::joined_length))]
fn text_len(error: &ServerError) -> u128
    ensures { result ≡ length (joined (error_text error.now)) }
{
    match &error.detail {
        None => error.code.len() as u128,
        Some(detail) => error.code.len() as u128 + detail.len() as u128 + 1,
    }
}

#[tactic(auto, using(crate::proofs::WrittenTexts::joined_inner))]
fn is_in_one_line(error: &ServerError) -> bool
    ensures { result ≡ list_all is_inner (joined (error_text error.now)) }
{
    match &error.detail {
        None => is_within_a_line(error.code.as_bytes()),
        Some(detail) => {
            is_within_a_line(error.code.as_bytes()) && is_within_a_line(detail.as_bytes())
        }
    }
}

fn put_spaced(out: &mut Vec<u8>, bytes: &[u8]) -> Result<(), AllocError>
    ensures { Appends out.old.items out.new.items (spaced bytes.now) result }
{
    'bytes: for byte in bytes {
        out.push(if is_inner(*byte) { *byte } else { b' ' })?;
    }
    Ok(())
}

#[tactic(auto, using(crate::proofs::WrittenTexts::joined_spaced))]
fn put_spaced_text(out: &mut Vec<u8>, error: &ServerError) -> Result<(), AllocError>
    ensures { Appends out.old.items out.new.items (spaced (joined (error_text error.now))) result }
{
    put_spaced(out, error.code.as_bytes())?;
    if let Some(detail) = &error.detail {
        out.extend_from_slice(b" ")?;
        put_spaced(out, detail.as_bytes())?;
    }
    Ok(())
}

fn put_spaced_line(out: &mut Vec<u8>, error: &ServerError) -> Result<(), AllocError>
    ensures { Appends out.old.items out.new.items
        (line_text 45 (spaced (joined (error_text error.now)))) result }
{
    out.extend_from_slice(b"-")?;
    put_spaced_text(out, error)?;
    out.extend_from_slice(b"\r\n")
}

fn put_error_line(out: &mut Vec<u8>, error: &ServerError) -> Result<(), AllocError>
    ensures { Appends out.old.items out.new.items
        (line_text 45 (joined (error_text error.now))) result }
{
    out.extend_from_slice(b"-")?;
    put_text(out, error)?;
    out.extend_from_slice(b"\r\n")
}

fn put_bulk_error(out: &mut Vec<u8>, error: &ServerError) -> Result<(), AllocError>
    ensures { Appends out.old.items out.new.items
        (counted_text 33 (joined (error_text error.now))) result }
{
    put_wide_count(out, b'!', text_len(error))?;
    put_text(out, error)?;
    out.extend_from_slice(b"\r\n")
}

#[inline(never)]
pub(super) fn put_error(
    out: &mut Vec<u8>,
    protocol: Protocol,
    error: &ServerError,
) -> Result<(), AllocError>
    ensures { Appends out.old.items out.new.items
        (failed_text protocol (joined (error_text error.now))) result }
{
    match protocol {
        Protocol::Resp2 => put_spaced_line(out, error),
        Protocol::Resp3 => {
            if is_in_one_line(error) {
                put_error_line(out, error)
            } else {
                put_bulk_error(out, error)
            }
        }
    }
}

pub(super) fn put_set_head(
    out: &mut Vec<u8>,
    protocol: Protocol,
    count: usize,
) -> Result<(), AllocError>
    ensures { Appends out.old.items out.new.items (set_head protocol count) result }
{
    match protocol {
        Protocol::Resp2 => put_count(out, b'*', count),
        Protocol::Resp3 => put_count(out, b'~', count),
    }
}

pub(super) fn put_map_head(
    out: &mut Vec<u8>,
    protocol: Protocol,
    count: usize,
) -> Result<(), AllocError>
    ensures { Appends out.old.items out.new.items (map_head protocol count) result }
{
    match protocol {
        Protocol::Resp2 => put_wide_count(out, b'*', 2 * (count as u128)),
        Protocol::Resp3 => put_count(out, b'%', count),
    }
}

pub(super) fn put_push_head(
    out: &mut Vec<u8>,
    protocol: Protocol,
    count: usize,
) -> Result<(), AllocError>
    ensures { Appends out.old.items out.new.items (push_head protocol (suc count)) result }
{
    match protocol {
        Protocol::Resp2 => put_wide_count(out, b'*', count as u128 + 1),
        Protocol::Resp3 => put_wide_count(out, b'>', count as u128 + 1),
    }
}
