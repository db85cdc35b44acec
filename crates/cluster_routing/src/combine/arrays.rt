//! The items of the arrays that several nodes answered.

ghost use Rattle.std.specs.Prelude.{◌≡◌, map, is_some, option_map, IfOk};
ghost use Rattle.std.specs.List.{list_all};
ghost use Rattle.resp_core.specs.View.{view};
ghost use Rattle.cluster_routing.specs.Combine.{array_of};
ghost use Rattle.cluster_routing.specs.Policies.{IsCombined, array_of_all};
ghost use Rattle.cluster_routing.specs.SlotsReply.{array_items};

use super::places::items_in;
use resp_core::{Cause, RedisError, Value};
use std::alloc::{AllocError, Global};

/// The items of the replies, which have to be arrays, one after another in one array. Of no replies
/// it is empty. (Documentation of the crate `redis`, `cluster_routing`.)
///
/// # Errors
/// `UnexpectedReturnType` where a reply is no array. `Memory` where memory is refused.
pub fn combine_array_results(alloc: Global, values: Vec<Value>) -> Result<Value, RedisError>
    ensures { IsCombined (array_of_all (map view values.items)) result }
{
    match items_of_all(alloc, values)? {
        Some(items) => Ok(Value::Array(items)),
        None => Err(RedisError::from(Cause::UnexpectedReturnType)),
    }
}

fn items_of_all(alloc: Global, values: Vec<Value>) -> Result<Option<Vec<Value>>, AllocError>
    ensures { IfOk result
        (λ o. option_map (λ v. array_of (map view v.items)) o ≡ array_of_all (map view values.items)) }
{
    if !are_arrays(&values) {
        return Ok(None);
    }
    Ok(Some(items_in(alloc, values)?))
}

fn are_arrays(values: &[Value]) -> bool
    ensures { result ≡ list_all (λ v. is_some (array_items (view v))) values.now }
{
    values.iter().all(is_array)
}

fn is_array(value: &Value) -> bool
    ensures { result ≡ is_some (array_items (view value.now)) }
{
    matches!(value, Value::Array(_))
}
