//! The replies to a pipeline, put back into the order of its commands.
ghost use Rattle.std.specs.Prelude.{◌≡◌, ◌<◌, map, vec_len, IfOk};
ghost use Rattle.std.specs.List.{AllByRecursion};
ghost use Rattle.cluster_routing.specs.Lists.{draw};
ghost use Rattle.cluster_steps.specs.Queues.{items_in, queue_in};

use std::alloc::{AllocError, Global};
use std::collections::VecDeque;

/// What came from one place.
#[derive(Drop)]
pub struct Answered<T> {
    pub link: usize,
    pub items: VecDeque<T>,
}

/// For each of these numbers the next item of what came from the place with that number.
pub fn drawn<T: Drop>(
    alloc: Global,
    numbers: &[usize],
    answered: Vec<Answered<T>>,
) -> Result<Vec<T>, AllocError>
    requires { AllByRecursion (λ number. number < vec_len answered) numbers.now }
    ensures { IfOk result (λ v. v.items ≡ draw numbers.now (queue_in (map items_in answered.items))) }
{
    let mut answered = answered;
    let mut items = Vec::with_capacity(alloc, numbers.len())?;
    'numbers: for number in numbers {
        if let Some(item) = answered[*number].items.pop_front() {
            items.push(item)?;
        }
    }
    Ok(items)
}
