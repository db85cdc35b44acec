//! What can stand in a line.
ghost use Rattle.std.specs.Prelude.{◌≡◌};
ghost use Rattle.std.specs.List.{list_all};
ghost use Rattle.resp_core.specs.Written.{one_line, is_double_line, is_text_line, is_inner};

use crate::parser::double::is_double;
use crate::parser::line::{LineEnd, line_end};
use std::str::from_utf8;

/// No CR LF stands in the bytes.
#[tactic(auto, unfolding(crate::specs::Reading::line_at))]
pub(super) fn is_one_line(bytes: &[u8]) -> bool
    ensures { result ≡ one_line bytes.now }
{
    match line_end(bytes, 0, false) {
        LineEnd::At(_) => false,
        LineEnd::GoesOn(_) => true,
    }
}

pub(super) fn is_double_line(text: &str) -> bool
    ensures { result ≡ is_double_line text.now }
{
    is_one_line(text.as_bytes()) && is_double(text.trim())
}

pub(super) fn is_text_line(bytes: &[u8]) -> bool
    ensures { result ≡ is_text_line bytes.now }
{
    match from_utf8(bytes) {
        Ok(_) => is_one_line(bytes),
        Err(_) => false,
    }
}

/// A byte that ends no line.
pub(super) fn is_inner(byte: u8) -> bool
    ensures { result ≡ is_inner byte }
{
    byte != b'\r' && byte != b'\n'
}

/// Neither a CR nor an LF stands in the bytes.
pub(super) fn is_within_a_line(bytes: &[u8]) -> bool
    ensures { result ≡ list_all is_inner bytes.now }
{
    bytes.iter().all(|b| is_inner(*b))
}
