//! What the first entry of a reply to XREAD or XREADGROUP tells of the reply's form.
//!
//! Where one of the two forms is refused at the first entry, only the other is left, and the reply can be read in it at
//! once. Nothing here takes memory.
ghost use Rattle.std.specs.Prelude.{◌≡◌, true, List, Option, None, IfSome, is_some, map as each};
ghost use Rattle.resp_core.specs.Trees.{Tree, array};
ghost use Rattle.resp_core.specs.View.{view, pair_view, trees_of};
ghost use Rattle.resp_args.specs.Convert.{traverse, one_pair, utf8};
ghost use Rattle.stream_commands.specs.Entries.{Entry, entries, claimed_entries, ids_with_fields, claimed_entry, some_fields};
ghost use Rattle.stream_commands.specs.ReadReply.{rows};
ghost use Rattle.stream_commands.specs.Shapes.{a_text, named};

use resp_core::Value;

/// Whether the first entry shows that the reply has no claim form: it is an array of another length than four.
pub(crate) fn has_no_claim_form(value: &Value) -> bool
    ensures { result ≡ true → rows claimed_entries (view value.now) ≡ None }
{
    match entry_in(value) {
        Some(entry) => is_no_claim(entry),
        None => false,
    }
}

/// Whether the first entry shows that the reply has no standard form: it ends with a number, where fields would stand.
pub(crate) fn has_no_standard_form(value: &Value) -> bool
    ensures { result ≡ true → rows entries (view value.now) ≡ None }
{
    match entry_in(value) {
        Some(entry) => is_claim(entry),
        None => false,
    }
}

/// The first entry of the first row: the rows are refused where it is, in each form.
fn entry_in(value: &Value) -> Option<&Value>
    ensures standard { IfSome result
        (λ entry. ids_with_fields (view entry.now) ≡ None → rows entries (view value.now) ≡ None) }
    ensures claim { IfSome result
        (λ entry. claimed_entry (view entry.now) ≡ None → rows claimed_entries (view value.now) ≡ None) }
{
    match first_entries(value) {
        Some(list) => first_entry(list),
        None => None,
    }
}

/// The entries of the first row, where the row is a pair with a readable key: the rows are refused where these are.
fn first_entries(value: &Value) -> Option<&Value>
    ensures { IfSome result (λ list. (form : Tree → Option (List Entry))
        → form (view list.now) ≡ None → rows form (view value.now) ≡ None) }
{
    match value {
        Value::Array(rows) => entries_of_array(rows.as_slice()),
        Value::Map(pairs) => entries_of_map(pairs.as_slice()),
        _ => None,
    }
}

fn entries_of_array(rows: &[Value]) -> Option<&Value>
    ensures { IfSome result (λ list. (form : Tree → Option (List Entry))
        → form (view list.now) ≡ None → traverse (named form) (each view rows.now) ≡ None) }
{
    match rows {
        [row, ..] => entries_of_row(row),
        _ => None,
    }
}

/// A row of another shape than an array of two tells nothing here.
fn entries_of_row(row: &Value) -> Option<&Value>
    ensures { IfSome result (λ list. (form : Tree → Option (List Entry))
        → form (view list.now) ≡ None → named form (view row.now) ≡ None) }
{
    match row {
        Value::Array(parts) => entries_of_parts(parts.as_slice()),
        _ => None,
    }
}

fn entries_of_parts(parts: &[Value]) -> Option<&Value>
    ensures { IfSome result (λ list. (form : Tree → Option (List Entry))
        → form (view list.now) ≡ None → named form (array (trees_of (each view parts.now))) ≡ None) }
{
    match parts {
        [key, list] => if_readable(key, list),
        _ => None,
    }
}

fn entries_of_map(pairs: &[(Value, Value)]) -> Option<&Value>
    ensures { IfSome result (λ list. (form : Tree → Option (List Entry)) → form (view list.now) ≡ None
        → traverse (λ p. named form (one_pair p)) (each pair_view pairs.now) ≡ None) }
{
    match pairs {
        [pair, ..] => if_readable(&pair.0, &pair.1),
        _ => None,
    }
}

/// A key that is refused is a cause of its own, which both forms tell before they look at an entry.
fn if_readable<'a>(key: &Value, list: &'a Value) -> Option<&'a Value>
    ensures same { IfSome result (λ l. l.now ≡ list.now) }
    ensures readable { IfSome result (λ _. is_some (a_text (view key.now)) ≡ true) }
{
    if is_text(key) { Some(list) } else { None }
}

/// Whether it is a text, or a bulk in UTF-8.
fn is_text(key: &Value) -> bool
    ensures { result ≡ true → is_some (a_text (view key.now)) ≡ true }
{
    match key {
        Value::BulkString(bytes) => is_utf8(bytes.as_slice()),
        Value::SimpleString(_) => true,
        _ => false,
    }
}

/// Both forms read such bytes as a text.
fn is_utf8(bytes: &[u8]) -> bool
    ensures { result ≡ true → is_some (utf8 bytes.now) ≡ true }
{
    match std::str::from_utf8(bytes) {
        Ok(_) => true,
        Err(_) => false,
    }
}

/// The first entry of an array: the entries are refused where it is, in each form.
fn first_entry(list: &Value) -> Option<&Value>
    ensures standard { IfSome result
        (λ entry. ids_with_fields (view entry.now) ≡ None → entries (view list.now) ≡ None) }
    ensures claim { IfSome result
        (λ entry. claimed_entry (view entry.now) ≡ None → claimed_entries (view list.now) ≡ None) }
{
    match list {
        Value::Array(items) => items.as_slice().first(),
        _ => None,
    }
}

/// Whether it is an array of another length than the four parts of a claim.
fn is_no_claim(entry: &Value) -> bool
    ensures { result ≡ true → claimed_entry (view entry.now) ≡ None }
{
    match entry {
        Value::Array(parts) => parts.len() != 4,
        _ => false,
    }
}

/// Whether it is an array of four of which the last is a number: read as names with fields, it is refused.
fn is_claim(entry: &Value) -> bool
    ensures { result ≡ true → ids_with_fields (view entry.now) ≡ None }
{
    match entry {
        Value::Array(parts) => ends_with_number(parts.as_slice()),
        _ => false,
    }
}

fn ends_with_number(parts: &[Value]) -> bool
    ensures { result ≡ true → ids_with_fields (array (trees_of (each view parts.now))) ≡ None }
{
    match parts {
        [_, _, _, last] => is_number(last),
        _ => false,
    }
}

fn is_number(value: &Value) -> bool
    ensures { result ≡ true → some_fields (view value.now) ≡ None }
{
    match value {
        Value::Int(_) => true,
        _ => false,
    }
}
