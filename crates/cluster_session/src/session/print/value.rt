//! Answers as words: the form's name, then its parts.
ghost use Rattle.std.specs.Prelude.{◌≡◌, ◌++◌, OnOk, string_bytes, length, decimal};
ghost use Rattle.resp_core.specs.View.{view, trees_view, pairs_view};
ghost use Rattle.cluster_session.specs.Printed.{answer_words, each_words, pair_words};

use crate::session::print::words::{print_bytes, print_count};
use resp_core::Value;
use std::alloc::AllocError;

/// Appends the words of an answer.
#[cycle(print)]
pub(super) fn print_value(output: &mut String, value: &Value) -> Result<(), AllocError>
    ensures { OnOk result
        (string_bytes output.new ≡ string_bytes output.old ++ answer_words (view value.now)) }
{
    match value {
        Value::Nil => output.push_str("nil"),
        Value::Int(number) => write!(output, "int {number}"),
        Value::BulkString(bytes) => print_bytes(output, "bulk ", bytes),
        Value::Array(items) => print_items(output, "array ", items),
        Value::SimpleString(text) => print_bytes(output, "simple ", text.as_bytes()),
        Value::Okay => output.push_str("okay"),
        Value::Map(pairs) => print_pairs(output, "map ", pairs),
        Value::Attribute { inner, attributes } => {
            print_pairs(output, "attribute ", attributes)?;
            output.push_str(" ")?;
            print_value(output, inner)
        }
        Value::Set(items) => print_items(output, "set ", items),
        Value::Double(text) => print_bytes(output, "double ", text.as_bytes()),
        Value::Boolean(true) => output.push_str("bool true"),
        Value::Boolean(false) => output.push_str("bool false"),
        Value::VerbatimString { format, text } => {
            print_bytes(output, "verbatim ", format.as_str().as_bytes())?;
            print_bytes(output, " ", text.as_bytes())
        }
        Value::BigNumber(digits) => print_bytes(output, "big ", digits),
        Value::Push { kind, items } => {
            print_bytes(output, "push ", kind.as_str().as_bytes())?;
            print_items(output, " ", items)
        }
        Value::ServerError(error) => print_bytes(output, "error ", error.code().as_bytes()),
    }
}

#[cycle(print)]
fn print_items(output: &mut String, name: &str, items: &[Value]) -> Result<(), AllocError>
    ensures { OnOk result
        (string_bytes output.new ≡ string_bytes output.old
        ++ (name.now ++ (decimal (length items.now) ++ each_words (trees_view items.now)))) }
{
    print_count(output, name, items.len())?;
    print_each(output, items)
}

#[cycle(print)]
fn print_each(output: &mut String, items: &[Value]) -> Result<(), AllocError>
    ensures { OnOk result
        (string_bytes output.new ≡ string_bytes output.old ++ each_words (trees_view items.now)) }
{
    for item in items {
        output.push_str(" ")?;
        print_value(output, item)?;
    }
    Ok(())
}

#[cycle(print)]
fn print_pairs(output: &mut String, name: &str, pairs: &[(Value, Value)]) -> Result<(), AllocError>
    ensures { OnOk result
        (string_bytes output.new ≡ string_bytes output.old
        ++ (name.now ++ (decimal (length pairs.now) ++ pair_words (pairs_view pairs.now)))) }
{
    print_count(output, name, pairs.len())?;
    print_each_pair(output, pairs)
}

#[cycle(print)]
fn print_each_pair(output: &mut String, pairs: &[(Value, Value)]) -> Result<(), AllocError>
    ensures { OnOk result
        (string_bytes output.new ≡ string_bytes output.old ++ pair_words (pairs_view pairs.now)) }
{
    for pair in pairs {
        output.push_str(" ")?;
        print_value(output, &pair.0)?;
        output.push_str(" ")?;
        print_value(output, &pair.1)?;
    }
    Ok(())
}
