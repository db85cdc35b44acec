//! How the replies of several nodes become one, and how a command is cut into tuples.

ghost use Rattle.std.specs.Prelude.{◌≡◌, false, option_map};
ghost use Rattle.cluster_routing.specs.Split.{Splitting, splitting_of};
ghost use Rattle.cluster_routing.specs.Table.{policy_by, rule_of};

use crate::table::{Rule, is_family, rule_for};

/// A test over the replies. (Documentation of the crate `redis`.)
#[derive(Clone, Copy, Debug, PartialEq, Eq)]
pub enum LogicalAggregateOp {
    /// 1 where all are nonzero, else 0.
    And,
}

/// A number from the replies. (Documentation of the crate `redis`.)
#[derive(Clone, Copy, Debug, PartialEq, Eq)]
pub enum AggregateOp {
    /// The least one.
    Min,
    /// Their sum.
    Sum,
}

/// How the replies of several nodes become one. (Documentation of the crate `redis`.)
#[derive(Clone, Copy, Debug, PartialEq, Eq)]
pub enum ResponsePolicy {
    /// The first reply that is no error.
    OneSucceeded,
    /// The first reply that is neither an error nor nil; nil where all are nil.
    FirstSucceededNonEmptyOrAllEmpty,
    /// The last reply, where none is an error.
    AllSucceeded,
    /// A test over arrays of numbers, place by place.
    AggregateLogical(LogicalAggregateOp),
    /// A number from numbers.
    Aggregate(AggregateOp),
    /// The items of all arrays; of a split command each at the place of its tuple.
    CombineArrays,
    /// Each reply beside the node that gave it.
    Special,
    /// The pairs of all maps, the numbers of equal keys added.
    CombineMaps,
}

impl ResponsePolicy {
    /// The policy of a command's name, whatever the case of its ASCII letters: the word, of a
    /// command with a family name the word, a space and the second word (`SCRIPT EXISTS`). `None`
    /// where the replies of a command of this name are never put together. It takes no memory.
    pub fn for_command(cmd: &[u8]) -> Option<ResponsePolicy>
        ensures { result ≡ policy_by (rule_of cmd.now false) }
    {
        match rule_for(cmd, false) {
            Rule::Split(_, policy) | Rule::AllMasters(policy) | Rule::AllNodes(policy) => {
                Some(policy)
            }
            _ => None,
        }
    }
}

/// How the arguments behind the word of a split command fall into tuples. (Documentation of the
/// crate `redis`.)
#[derive(Clone, Copy, Debug, PartialEq, Eq)]
pub enum MultiSlotArgPattern {
    /// Each argument is a key.
    KeysOnly,
    /// Each key has a value behind it.
    KeyValuePairs,
    /// Each argument but the last is a key; the last belongs to every key.
    KeysAndLastArg,
    /// Each key has two arguments behind it.
    KeyWithTwoArgTriples,
}

impl MultiSlotArgPattern {
    /// How the arguments of this word's commands fall into tuples, whatever the case of its ASCII
    /// letters; `None` where the word is none of a split command. It takes no memory.
    #[tactic(auto, unfolding(crate::specs::Split::splitting_of))]
    pub fn for_command(word: &[u8]) -> Option<MultiSlotArgPattern>
        ensures { result ≡ option_map (λ (s : Splitting). s.pattern) (splitting_of word.now) }
    {
        match rule_for(word, is_family(word)) {
            Rule::Split(pattern, _) => Some(pattern),
            _ => None,
        }
    }
}
