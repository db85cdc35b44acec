//! How many values and pairs a list holds.
ghost use Rattle.std.specs.Prelude.{◌≡◌};
ghost use Rattle.resp_core.specs.View.{trees_view, pairs_view};
ghost use Rattle.resp_core.specs.Written.{count, pair_count};

use crate::value::Value;

#[tactic(auto, using(crate::proofs::WrittenTexts::counts))]
pub(super) fn count_of(items: &Vec<Value>) -> usize
    ensures { result ≡ count (trees_view items.now.items) }
{
    items.len()
}

#[tactic(auto, using(crate::proofs::WrittenTexts::pair_counts))]
pub(super) fn pair_count_of(pairs: &Vec<(Value, Value)>) -> usize
    ensures { result ≡ pair_count (pairs_view pairs.now.items) }
{
    pairs.len()
}
