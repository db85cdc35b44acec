//! One reply to a read of streams, from the replies to its parts.

ghost use Rattle.std.specs.Prelude.{◌≡◌, ◌≢◌, List, [], true, None, Some, length, map as each, filter_map, option_map, slice_set, nat_eq, nat_lt, is_ok, IfOk, IfErr, OnOk, MatchResult};
ghost use Rattle.std.specs.List.{IsDistinct, list_all, position_or_len};
ghost use Rattle.std.specs.Str.{bytes_eq};
ghost use Rattle.indexmap.specs.IndexSet.{insert_all};
ghost use Rattle.resp_core.specs.Errors.{no_memory};
ghost use Rattle.resp_args.specs.Convert.{Answers};
ghost use Rattle.stream_commands.specs.Join.{join, lent_keys, positions_below, share};
ghost use Rattle.stream_commands.specs.Joining.{ArePut, DoNotFit, Holds, is_free, positions};
ghost use Rattle.stream_commands.specs.ReadReply.{Row};
ghost use Rattle.stream_commands.specs.RecordViews.{row_view, rows_view};

use crate::records::{StreamKey, StreamReadReply};
use indexmap::IndexSet;
use resp_core::ParsingError;
use std::alloc::{AllocError, Global};

/// The reply to a read of streams that was sent in parts: the rows of the replies, in order of `keys`.
///
/// `parts` has for each reply the positions of its keys among `keys`.
///
/// # Errors
/// A refusal where a row names no key of its part, or a key is named twice. Want of memory.
pub fn join_read_replies(
    alloc: Global,
    keys: &[&[u8]],
    parts: &[Vec<usize>],
    replies: Vec<StreamReadReply>,
) -> Result<StreamReadReply, ParsingError>
    requires differ { IsDistinct bytes_eq (lent_keys keys.now) }
    requires replies { length replies.items ≡ length parts.now }
    requires once { share (positions parts.now) (length keys.now) ≡ true }
    ensures { Answers (λ r. rows_view r.keys.items)
        (join (lent_keys keys.now) (positions parts.now) (each (λ r. rows_view r.keys.items) replies.items))
        result }
{
    let places = set_of(alloc, keys)?;
    let mut table = empty_table(alloc, keys.len())?;
    let mut rest = parts;
    'replies: for reply in replies {
        match rest {
            [] => return Err(ParsingError::fixed("a reply for each part was wanted")),
            [part, more @ ..] => {
                put_rows(alloc, &places, part, reply.keys, &mut table)?;
                rest = more;
            }
        }
    }
    let keys = rows_in(alloc, table)?;
    Ok(StreamReadReply { keys })
}

/// The keys, each at its position.
fn set_of<'k>(alloc: Global, keys: &[&'k [u8]]) -> Result<IndexSet<&'k [u8]>, AllocError>
    requires { IsDistinct bytes_eq (lent_keys keys.now) }
    ensures { IfOk result (λ s. lent_keys s.keys ≡ lent_keys keys.now) }
{
    let mut set = IndexSet::new(alloc);
    'keys: for key in keys {
        set.insert(*key)?;
    }
    Ok(set)
}

fn empty_table(alloc: Global, len: usize) -> Result<Vec<Option<StreamKey>>, AllocError>
    ensures { IfOk result (λ v. v.items ≡ each (λ _. None) (positions_below len)) }
{
    let mut table = Vec::with_capacity(alloc, len)?;
    'places: for place in 0..len {
        table.push(None)?;
    }
    Ok(table)
}

/// Puts each row of a reply at the position of its key. Refused where a row names no key of the part,
/// or one that is named already.
fn put_rows(
    alloc: Global,
    places: &IndexSet<&[u8]>,
    part: &[usize],
    rows: Vec<StreamKey>,
    table: &mut Vec<Option<StreamKey>>,
) -> Result<(), ParsingError>
    requires differ { IsDistinct bytes_eq (lent_keys places.now.keys) }
    requires within { list_all (λ p. nat_lt p (length (lent_keys places.now.keys))) part.now ≡ true }
    requires room { length table.old.items ≡ length (lent_keys places.now.keys) }
    ensures { (had : List Row) → Holds (lent_keys places.now.keys) had table.old.items → MatchResult result
        (λ _. ArePut (lent_keys places.now.keys) part.now had (rows_view rows.items) table.new.items)
        (λ e. e ≢ no_memory → DoNotFit (lent_keys places.now.keys) part.now had (rows_view rows.items)) }
{
    let own = own_positions(alloc, part)?;
    'rows: for row in rows {
        let place = place_of(places, row.key.as_str());
        put_row(&own, table, place, row)?;
    }
    Ok(())
}

/// The positions of a part.
fn own_positions(alloc: Global, part: &[usize]) -> Result<IndexSet<usize>, AllocError>
    ensures { IfOk result (λ s. s.keys ≡ insert_all nat_eq [] part.now) }
{
    let mut own = IndexSet::new(alloc);
    'part: for position in part {
        own.insert(*position)?;
    }
    Ok(own)
}

/// The position of a key, or how many there are where it is none of them.
fn place_of(places: &IndexSet<&[u8]>, key: &str) -> usize
    ensures { result ≡ position_or_len (bytes_eq key.now) (lent_keys places.now.keys) }
{
    match places.get_index_of(key.as_bytes()) {
        Some(place) => place,
        None => places.len(),
    }
}

fn put_row(
    own: &IndexSet<usize>,
    table: &mut Vec<Option<StreamKey>>,
    place: usize,
    row: StreamKey,
) -> Result<(), ParsingError>
    requires { list_all (λ p. nat_lt p (length table.old.items)) own.now.keys ≡ true }
    ensures free { is_ok result ≡ is_free own.now.keys table.old.items place }
    ensures kept { length table.new.items ≡ length table.old.items }
    ensures put { OnOk result (table.new.items ≡ slice_set table.old.items place (Some row)) }
    ensures refused { IfErr result (λ e. e ≢ no_memory) }
{
    if !own.contains(&place) {
        return Err(ParsingError::fixed("a key of the part was wanted"));
    }
    if table[place].is_some() {
        return Err(ParsingError::fixed("each key once was wanted"));
    }
    table[place] = Some(row);
    Ok(())
}

/// The rows of a table, in order.
fn rows_in(alloc: Global, table: Vec<Option<StreamKey>>) -> Result<Vec<StreamKey>, AllocError>
    ensures { IfOk result (λ v. rows_view v.items ≡ filter_map (option_map row_view) table.items) }
{
    let mut rows = Vec::new(alloc);
    'table: for place in table {
        if let Some(row) = place {
            rows.push(row)?;
        }
    }
    Ok(rows)
}
