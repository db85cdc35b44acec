//! Fields of entries: names and values in order of arrival.
ghost use Rattle.std.specs.Prelude.{◌≡◌, [], string_eq, string_bytes, map as each, IfOk};
ghost use Rattle.indexmap.specs.IndexMap.{insert_all};
ghost use Rattle.resp_core.specs.View.{view};
ghost use Rattle.stream_commands.specs.RecordViews.{fields_view};

use indexmap::IndexMap;
use resp_core::Value;
use std::alloc::{AllocError, Global};

pub(crate) type Fields = IndexMap<String, Value>;

/// Equal fields in the same order.
pub(crate) fn copy_fields(alloc: Global, fields: &Fields) -> Result<Fields, AllocError>
    ensures { IfOk result (λ copy. fields_view copy ≡ fields_view fields.now) }
{
    let count = fields.len();
    let pairs = copy_pairs(alloc, fields, count)?;
    collect(alloc, pairs)
}

fn copy_pairs(
    alloc: Global,
    fields: &Fields,
    count: usize,
) -> Result<Vec<(String, Value)>, AllocError>
    ensures { IfOk result
        (λ pairs. each (λ f. (string_bytes f.0, view f.1)) pairs.items ≡ fields_view fields.now) }
{
    let mut pairs = Vec::with_capacity(alloc, count)?;
    for (name, value) in fields {
        pairs.push((name.clone()?, value.clone()?))?;
    }
    Ok(pairs)
}

fn collect(alloc: Global, pairs: Vec<(String, Value)>) -> Result<Fields, AllocError>
    ensures { IfOk result (λ fields. fields.entries ≡ insert_all string_eq [] pairs.items) }
{
    let mut fields = IndexMap::new(alloc);
    for pair in pairs {
        let (name, value) = pair;
        drop(fields.insert(name, value)?);
    }
    Ok(fields)
}
