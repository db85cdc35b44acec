//! Entries of streams as words.
ghost use Rattle.std.specs.Prelude.{◌≡◌, ◌++◌, OnOk, string_bytes, codes, decimal, length, option_map, pos};
ghost use Rattle.std.specs.List.{flat_map};
ghost use Rattle.stream_commands.specs.RecordViews.{entries_view, entry_view, fields_view, rows_view};
ghost use Rattle.cluster_session.specs.Printed.{entries_words, entry_words, field_words, number_word, rows_words};

use crate::session::print::value::print_value;
use crate::session::print::words::{print_bytes, print_count};
use cluster_client::{StreamId, StreamKey, Value};
use indexmap::IndexMap;
use std::alloc::AllocError;

/// Appends the words of streams, each its key and its entries.
pub(super) fn print_rows(output: &mut String, rows: &[StreamKey]) -> Result<(), AllocError>
    ensures { OnOk result
        (string_bytes output.new ≡ string_bytes output.old ++ rows_words (rows_view rows.now)) }
{
    print_count(output, "keys ", rows.len())?;
    for row in rows {
        print_bytes(output, " key ", row.key.as_bytes())?;
        output.push_str(" ")?;
        print_entries(output, &row.ids)?;
    }
    Ok(())
}

/// Appends the words of entries.
pub(super) fn print_entries(output: &mut String, entries: &[StreamId]) -> Result<(), AllocError>
    ensures { OnOk result
        (string_bytes output.new ≡ string_bytes output.old ++ entries_words (entries_view entries.now)) }
{
    print_count(output, "ids ", entries.len())?;
    for entry in entries {
        print_entry(output, entry)?;
    }
    Ok(())
}

/// A space, and the words of an entry.
fn print_entry(output: &mut String, entry: &StreamId) -> Result<(), AllocError>
    ensures { OnOk result
        (string_bytes output.new ≡ string_bytes output.old
        ++ (codes " " ++ entry_words (entry_view entry.now))) }
{
    print_bytes(output, " id ", entry.id.as_bytes())?;
    print_fields(output, &entry.map)?;
    print_time(output, entry.milliseconds_elapsed_from_delivery)?;
    print_time(output, entry.delivered_count)
}

/// The number of the fields, and each name with its value, a space before each word.
fn print_fields(output: &mut String, fields: &IndexMap<String, Value>) -> Result<(), AllocError>
    ensures { OnOk result (string_bytes output.new ≡ string_bytes output.old
        ++ (codes " " ++ (decimal (length fields.now.entries)
        ++ flat_map field_words (fields_view fields.now)))) }
{
    print_count(output, " ", fields.len())?;
    for (name, value) in fields {
        print_bytes(output, " ", name.as_bytes())?;
        output.push_str(" ")?;
        print_value(output, value)?;
    }
    Ok(())
}

/// A space, and a number or a dash.
fn print_time(output: &mut String, number: Option<usize>) -> Result<(), AllocError>
    ensures { OnOk result
        (string_bytes output.new ≡ string_bytes output.old
        ++ (codes " " ++ number_word (option_map pos number))) }
{
    match number {
        None => output.push_str(" -"),
        Some(number) => print_count(output, " ", number),
    }
}
