//! Whether a reply can be written. A level is gone down only where one is left.
ghost use Rattle.std.specs.Prelude.{◌≡◌, ◌&&◌, nat_lt, string_bytes, option_map};
ghost use Rattle.resp_core.specs.View.{view, trees_view, pairs_view, kind_view};
ghost use Rattle.resp_core.specs.Written.{fits, fits_in, fits_all, fits_pairs, fits_beside, is_few, is_text, is_detail, is_number, count, pair_count};
ghost use Rattle.resp_core.specs.Printed.{kind_text};

use crate::value::write::Protocol;
use crate::value::write::counts::{count_of, pair_count_of};
use crate::value::{PushKind, Value};

fn is_few(count: usize) -> bool
    ensures { result ≡ is_few count }
{
    (count as u64) < (1u64 << 62)
}

#[tactic(auto, using(crate::proofs::WrittenTexts::texts_are_utf8))]
fn is_text(text: &str) -> bool
    ensures { result ≡ is_text text.now }
{
    is_few(text.len())
}

fn is_detail(detail: &Option<String>) -> bool
    ensures { result ≡ is_detail (option_map (λ s. string_bytes s) detail.now) }
{
    match detail {
        None => true,
        Some(text) => is_text(text),
    }
}

/// Every `i64` is a number that can be written.
fn is_number(number: i64) -> bool
    ensures { result ≡ is_number number }
{
    let _ = number;
    true
}

/// The kind of a push is written as a value one level below it.
fn is_kind(kind: &PushKind, below: u16) -> bool
    ensures { result ≡ (nat_lt 0 below && is_text (kind_text (kind_view kind.now))) }
{
    below > 0 && is_text(kind.as_str())
}

#[cycle(fitting)]
pub(super) fn value_fits(value: &Value, protocol: Protocol, levels: u16) -> bool
    ensures { result ≡ fits protocol levels (view value.now) }
{
    levels > 0 && fits_within(value, protocol, levels - 1)
}

#[cycle(fitting)]
#[tactic(auto, unfolding(crate::specs::Written::fits_in))]
fn fits_within(value: &Value, protocol: Protocol, below: u16) -> bool
    ensures { result ≡ fits_in protocol below (view value.now) }
{
    match value {
        Value::Nil | Value::Okay | Value::Boolean(_) => true,
        Value::Int(number) => is_number(*number),
        Value::BulkString(bytes) | Value::BigNumber(bytes) => is_few(bytes.len()),
        Value::SimpleString(text) | Value::Double(text) => is_text(text),
        Value::Array(items) | Value::Set(items) => list_fits(items, protocol, below),
        Value::Map(pairs) => map_fits(pairs, protocol, below),
        Value::Attribute { inner, attributes } => {
            beside_fits(attributes, protocol, below) && value_fits(inner, protocol, below)
        }
        Value::VerbatimString { format, text } => is_text(format.as_str()) && is_text(text),
        Value::Push { kind, items } => is_kind(kind, below) && list_fits(items, protocol, below),
        Value::ServerError(error) => is_text(&error.code) && is_detail(&error.detail),
    }
}

#[cycle(fitting)]
fn list_fits(items: &Vec<Value>, protocol: Protocol, levels: u16) -> bool
    ensures { result ≡ (is_few (count (trees_view items.now.items))
        && fits_all protocol levels (trees_view items.now.items)) }
{
    is_few(count_of(items)) && items_fit(items, protocol, levels)
}

#[cycle(fitting)]
fn map_fits(pairs: &Vec<(Value, Value)>, protocol: Protocol, levels: u16) -> bool
    ensures { result ≡ (is_few (pair_count (pairs_view pairs.now.items))
        && fits_pairs protocol levels (pairs_view pairs.now.items)) }
{
    is_few(pair_count_of(pairs)) && pairs_fit(pairs, protocol, levels)
}

/// The pairs of an attribute, which RESP2 leaves out.
#[cycle(fitting)]
fn beside_fits(pairs: &Vec<(Value, Value)>, protocol: Protocol, levels: u16) -> bool
    ensures { result ≡ fits_beside protocol (is_few (pair_count (pairs_view pairs.now.items))
        && fits_pairs protocol levels (pairs_view pairs.now.items)) }
{
    match protocol {
        Protocol::Resp2 => true,
        Protocol::Resp3 => map_fits(pairs, protocol, levels),
    }
}

#[cycle(fitting)]
fn items_fit(items: &Vec<Value>, protocol: Protocol, levels: u16) -> bool
    ensures { result ≡ fits_all protocol levels (trees_view items.now.items) }
{
    'items: for item in items {
        if !value_fits(item, protocol, levels) {
            return false;
        }
    }
    true
}

#[cycle(fitting)]
fn pairs_fit(pairs: &Vec<(Value, Value)>, protocol: Protocol, levels: u16) -> bool
    ensures { result ≡ fits_pairs protocol levels (pairs_view pairs.now.items) }
{
    'pairs: for pair in pairs {
        if !value_fits(&pair.0, protocol, levels) {
            return false;
        }
        if !value_fits(&pair.1, protocol, levels) {
            return false;
        }
    }
    true
}
