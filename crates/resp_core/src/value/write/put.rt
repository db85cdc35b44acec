//! Whole replies, as bytes. A level of a reply takes one turn of small functions.
//!
//! Where memory is refused, some more bytes stand behind those of the buffer.
ghost use Rattle.std.specs.Prelude.{◌++◌, suc};
ghost use Rattle.resp_core.specs.View.{view, trees_view, pairs_view, kind_view};
ghost use Rattle.resp_core.specs.Written.{Appends, written, written_all, written_pairs, beside, count, pair_count, count_text, set_head, map_head, push_head, bulk_text};
ghost use Rattle.resp_core.specs.Printed.{kind_text};

use crate::value::write::Protocol;
use crate::value::write::counts::{count_of, pair_count_of};
use crate::value::write::leaf::{
    put_big, put_boolean, put_bulk, put_count, put_double, put_error, put_map_head, put_nil,
    put_number, put_push_head, put_set_head, put_simple, put_verbatim,
};
use crate::value::{PushKind, Value};
use std::alloc::AllocError;

#[cycle(put)]
#[tactic(auto, unfolding(crate::specs::Written::written))]
pub(super) fn put_value(
    value: &Value,
    protocol: Protocol,
    out: &mut Vec<u8>,
) -> Result<(), AllocError>
    ensures { Appends out.old.items out.new.items (written protocol (view value.now)) result }
{
    match value {
        Value::Nil => put_nil(out, protocol),
        Value::Int(number) => put_number(out, *number),
        Value::BulkString(bytes) => put_bulk(out, bytes),
        Value::Array(items) => put_array(items, protocol, out),
        Value::SimpleString(text) => put_simple(out, text),
        Value::Okay => out.extend_from_slice(b"+OK\r\n"),
        Value::Map(pairs) => put_map(pairs, protocol, out),
        Value::Attribute { inner, attributes } => {
            put_beside(attributes, protocol, out)?;
            put_value(inner, protocol, out)
        }
        Value::Set(items) => put_set(items, protocol, out),
        Value::Double(text) => put_double(out, protocol, text),
        Value::Boolean(truth) => put_boolean(out, protocol, *truth),
        Value::VerbatimString { format, text } => put_verbatim(out, protocol, format, text),
        Value::BigNumber(bytes) => put_big(out, protocol, bytes),
        Value::Push { kind, items } => put_push(kind, items, protocol, out),
        Value::ServerError(error) => put_error(out, protocol, error),
    }
}

#[cycle(put)]
#[inline(never)]
fn put_array(items: &Vec<Value>, protocol: Protocol, out: &mut Vec<u8>) -> Result<(), AllocError>
    ensures { Appends out.old.items out.new.items
        (count_text 42 (count (trees_view items.now.items))
        ++ written_all protocol (trees_view items.now.items)) result }
{
    put_count(out, b'*', count_of(items))?;
    put_items(items, protocol, out)
}

#[cycle(put)]
#[inline(never)]
fn put_set(items: &Vec<Value>, protocol: Protocol, out: &mut Vec<u8>) -> Result<(), AllocError>
    ensures { Appends out.old.items out.new.items
        (set_head protocol (count (trees_view items.now.items))
        ++ written_all protocol (trees_view items.now.items)) result }
{
    put_set_head(out, protocol, count_of(items))?;
    put_items(items, protocol, out)
}

#[cycle(put)]
#[inline(never)]
fn put_map(
    pairs: &Vec<(Value, Value)>,
    protocol: Protocol,
    out: &mut Vec<u8>,
) -> Result<(), AllocError>
    ensures { Appends out.old.items out.new.items
        (map_head protocol (pair_count (pairs_view pairs.now.items))
        ++ written_pairs protocol (pairs_view pairs.now.items)) result }
{
    put_map_head(out, protocol, pair_count_of(pairs))?;
    put_pairs(pairs, protocol, out)
}

#[inline(never)]
fn put_push_kind(
    kind: &PushKind,
    count: usize,
    protocol: Protocol,
    out: &mut Vec<u8>,
) -> Result<(), AllocError>
    ensures { Appends out.old.items out.new.items
        (push_head protocol (suc count) ++ bulk_text (kind_text (kind_view kind.now))) result }
{
    put_push_head(out, protocol, count)?;
    put_bulk(out, kind.as_str().as_bytes())
}

#[cycle(put)]
#[inline(never)]
fn put_push(
    kind: &PushKind,
    items: &Vec<Value>,
    protocol: Protocol,
    out: &mut Vec<u8>,
) -> Result<(), AllocError>
    ensures { Appends out.old.items out.new.items
        (push_head protocol (suc (count (trees_view items.now.items))) ++ (bulk_text
        (kind_text (kind_view kind.now)) ++ written_all protocol (trees_view items.now.items))) result }
{
    put_push_kind(kind, count_of(items), protocol, out)?;
    put_items(items, protocol, out)
}

/// What stands before the value that an attribute is about.
#[cycle(put)]
#[inline(never)]
fn put_beside(
    pairs: &Vec<(Value, Value)>,
    protocol: Protocol,
    out: &mut Vec<u8>,
) -> Result<(), AllocError>
    ensures { Appends out.old.items out.new.items
        (beside protocol (pair_count (pairs_view pairs.now.items))
        (written_pairs protocol (pairs_view pairs.now.items))) result }
{
    match protocol {
        Protocol::Resp2 => Ok(()),
        Protocol::Resp3 => {
            put_count(out, b'|', pair_count_of(pairs))?;
            put_pairs(pairs, protocol, out)
        }
    }
}

#[cycle(put)]
fn put_items(items: &Vec<Value>, protocol: Protocol, out: &mut Vec<u8>) -> Result<(), AllocError>
    ensures { Appends out.old.items out.new.items
        (written_all protocol (trees_view items.now.items)) result }
{
    'items: for item in items {
        put_value(item, protocol, out)?;
    }
    Ok(())
}

#[cycle(put)]
fn put_pairs(
    pairs: &Vec<(Value, Value)>,
    protocol: Protocol,
    out: &mut Vec<u8>,
) -> Result<(), AllocError>
    ensures { Appends out.old.items out.new.items
        (written_pairs protocol (pairs_view pairs.now.items)) result }
{
    'pairs: for pair in pairs {
        put_value(&pair.0, protocol, out)?;
        put_value(&pair.1, protocol, out)?;
    }
    Ok(())
}
