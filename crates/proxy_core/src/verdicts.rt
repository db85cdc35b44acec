//! Which commands of a guest were overtaken in a turn.
ghost use Rattle.std.specs.Prelude.{◌≡◌, ◌≤◌, ◌⊎◌, ◌∷◌, ◌++◌, [], length, take, IfOk};
ghost use Rattle.proxy_core.specs.Queue.{overtaken, waiting};
ghost use Rattle.proxy_core.specs.Verdicts.{verdicts};

use crate::command::Command;
use crate::done::Done;
use crate::outcome::Outcome;
use crate::queue::{Entry, may_be_done};
use std::alloc::AllocError;
use std::collections::VecDeque;

/// How many of the first `count` entries wait.
fn waiting_count<C, V>(entries: &VecDeque<Entry<C, V>>, count: usize) -> usize
    requires { count ≤ length entries.now.items }
    ensures { result ≡ length (waiting (take count entries.now.items)) }
{
    let mut waiting = 0;
    'entries: for i in 0..count {
        match &entries[i] {
            Entry::Reads(_) => {}
            Entry::Waits(_) => waiting += 1,
        }
    }
    waiting
}

/// Whether each command that was not done was overtaken, of the first `count` behind this one from the last
/// to the first, and then of this one. Each is looked up among the slots of what was done behind it, which is
/// the same as to compare it with each of those: commands overlap where they share a slot, or one has none.
fn verdicts<C: Command, V>(
    command: &C,
    behind: &VecDeque<Entry<C, V>>,
    count: usize,
    outcomes: &VecDeque<Outcome<V>>,
) -> Result<Vec<bool>, AllocError>
    requires { count ≤ length behind.now.items }
    ensures { IfOk result (λ told. told.items
        ≡ verdicts C.overlaps (take count behind.now.items) outcomes.now.items
        ++ overtaken C.overlaps command.now (take count behind.now.items) outcomes.now.items ∷ []) }
{
    let alloc = *behind.allocator();
    let mut told = Vec::new(alloc);
    let mut done = Done::new(alloc);
    let mut next = waiting_count(behind, count);
    'behind: for i in 0..count {
        match &behind[count - 1 - i] {
            Entry::Reads(_) => {}
            Entry::Waits(later) => {
                next -= 1;
                if let Some(outcome) = outcomes.get(next) {
                    if may_be_done(outcome.fate) {
                        done.add(later)?;
                    } else {
                        told.push(done.overtakes(later))?;
                    }
                }
            }
        }
    }
    told.push(done.overtakes(command))?;
    Ok(told)
}

/// The same, or nothing where memory was refused.
pub(crate) fn told_verdicts<C: Command, V>(
    command: &C,
    behind: &VecDeque<Entry<C, V>>,
    count: usize,
    outcomes: &VecDeque<Outcome<V>>,
) -> Vec<bool>
    requires { count ≤ length behind.now.items }
    ensures { (result.items ≡ []) ⊎ (result.items
        ≡ verdicts C.overlaps (take count behind.now.items) outcomes.now.items
        ++ overtaken C.overlaps command.now (take count behind.now.items) outcomes.now.items ∷ []) }
{
    match verdicts(command, behind, count, outcomes) {
        Ok(told) => told,
        Err(AllocError) => Vec::new(*behind.allocator()),
    }
}
