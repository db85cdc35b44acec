//! Whether numbers are an order of so many things.

ghost use Rattle.std.specs.Prelude.{◌≡◌, ◌&&◌, ◌||◌, ℕ, true, false, not, replicate, nat_eq, length, slice_index_or, IfOk};
ghost use Rattle.std.specs.List.{list_all};
ghost use Rattle.cluster_routing.specs.Lists.{among, is_distinct, is_permutation};

use std::alloc::{AllocError, Global};

/// Whether the numbers are those below `count`, each once, in any order.
///
/// # Errors
/// `AllocError` where memory is refused.
pub fn is_permutation(alloc: Global, order: &[usize], count: usize) -> Result<bool, AllocError>
    ensures { IfOk result (λ b. b ≡ is_permutation count order.now) }
{
    let mut marks = vec![in alloc; false; count]?;
    Ok(marks_each_once(&mut marks, order))
}

/// Whether the places are those of the marks, each once. No mark is set before.
fn marks_each_once(marks: &mut [bool], places: &[usize]) -> bool
    requires { marks.old ≡ replicate (length marks.old) false }
    ensures { result ≡ is_permutation (length marks.old) places.now }
{
    mark_each(marks, places) && are_all_marked(marks)
}

/// Marks each place; false where one is too large, or marked already.
fn mark_each(marks: &mut [bool], places: &[usize]) -> bool
    ensures fresh { result
        ≡ (list_all (λ p. not (slice_index_or marks.old p true)) places.now && is_distinct nat_eq places.now) }
    ensures marked { result ≡ true → (p : ℕ)
        → slice_index_or marks.new p true ≡ (slice_index_or marks.old p true || among nat_eq p places.now) }
    ensures len { length marks.new ≡ length marks.old }
{
    'places: for place in places {
        if is_taken(marks, *place) {
            return false;
        }
        marks[*place] = true;
    }
    true
}

/// Whether a place is too large, or marked.
fn is_taken(marks: &[bool], place: usize) -> bool
    ensures { result ≡ slice_index_or marks.now place true }
{
    match marks.get(place) {
        Some(mark) => *mark,
        None => true,
    }
}

fn are_all_marked(marks: &[bool]) -> bool
    ensures { result ≡ list_all (λ m. m) marks.now }
{
    marks.iter().all(|mark| *mark)
}
