//! What a proxy holds of one guest.
ghost use Rattle.std.specs.Prelude.{◌≡◌, ◌≤◌, ◌++◌, ◌∷◌, ◌⊎◌, [], take, drop, length};
ghost use Rattle.proxy_core.specs.Fates.{may_be_done};
ghost use Rattle.proxy_core.specs.Guests.{entry_bytes};
ghost use Rattle.proxy_core.specs.Queue.{LeavesFirst, overtaken, settled, waiting};
ghost use Rattle.proxy_core.specs.Verdicts.{MayTell, verdicts};

use crate::command::{Bytes, Command};
use crate::outcome::{Fate, Outcome};
use crate::verdicts::told_verdicts;
use std::collections::VecDeque;

/// One command of a guest, in its place.
#[derive(Drop)]
pub enum Entry<C, V> {
    /// It waits to be asked.
    Waits(C),
    /// Its reply is there.
    Reads(V),
}

impl<C: Bytes, V: Bytes> Entry<C, V> {
    /// How many bytes of its guest's share it takes.
    pub fn bytes(&self) -> usize
        ensures { result ≡ entry_bytes C.bytes V.bytes self.now }
    {
        match self {
            Entry::Waits(command) => command.bytes(),
            Entry::Reads(reply) => reply.bytes(),
        }
    }
}

/// Whether a command with this fate may have been done.
pub(crate) fn may_be_done(fate: Fate) -> bool
    ensures { result ≡ may_be_done fate }
{
    match fate {
        Fate::Answered | Fate::Lost => true,
        Fate::Redirected | Fate::NotAsked => false,
    }
}

/// Whether one of the first `count` commands behind `command` overtook it.
fn is_overtaken<C: Command, V>(
    command: &C,
    behind: &VecDeque<Entry<C, V>>,
    count: usize,
    outcomes: &VecDeque<Outcome<V>>,
) -> bool
    requires { count ≤ length behind.now.items }
    ensures { result ≡ overtaken C.overlaps command.now (take count behind.now.items) outcomes.now.items }
{
    let mut next = 0;
    'behind: for i in 0..count {
        match &behind[i] {
            Entry::Reads(_) => {}
            Entry::Waits(later) => {
                let Some(outcome) = outcomes.get(next) else {
                    return false;
                };
                if may_be_done(outcome.fate) && command.overlaps(later) {
                    return true;
                }
                next += 1;
            }
        }
    }
    false
}

/// Whether a command that was not done was overtaken: as the next verdict says, of those that the first such
/// command asks for, or by a look at all behind it where none can be told.
fn next_verdict<C: Command, V>(
    told: &mut Vec<bool>,
    command: &C,
    behind: &VecDeque<Entry<C, V>>,
    count: usize,
    outcomes: &VecDeque<Outcome<V>>,
) -> bool
    requires counted { count ≤ length behind.now.items }
    requires told { (told.old.items ≡ []) ⊎ (told.old.items
        ≡ verdicts C.overlaps (take count behind.now.items) outcomes.now.items
        ++ overtaken C.overlaps command.now (take count behind.now.items) outcomes.now.items ∷ []) }
    ensures verdict { result
        ≡ overtaken C.overlaps command.now (take count behind.now.items) outcomes.now.items }
    ensures told { MayTell C.overlaps told.new.items (take count behind.now.items) outcomes.now.items }
{
    if told.is_empty() {
        *told = told_verdicts(command, behind, count, outcomes);
    }
    match told.pop() {
        Some(verdict) => verdict,
        None => is_overtaken(command, behind, count, outcomes),
    }
}

/// What becomes of a command that waits, with `count` entries behind it.
fn settle_one<C: Command, V: Drop>(
    command: C,
    behind: &VecDeque<Entry<C, V>>,
    count: usize,
    outcomes: &mut VecDeque<Outcome<V>>,
    told: &mut Vec<bool>,
) -> Entry<C, V>
    requires counted { count ≤ length behind.now.items }
    requires told { MayTell C.overlaps told.old.items (Entry.Waits command ∷ take count behind.now.items)
        outcomes.old.items }
    ensures next { outcomes.new.items ≡ drop 1 outcomes.old.items }
    ensures entry { LeavesFirst C.overlaps command (take count behind.now.items)
        outcomes.old.items outcomes.new.items result }
    ensures told { MayTell C.overlaps told.new.items (take count behind.now.items) outcomes.new.items }
{
    let Some(outcome) = outcomes.pop_front() else {
        return Entry::Waits(command);
    };
    if may_be_done(outcome.fate) || next_verdict(told, &command, behind, count, outcomes) {
        Entry::Reads(outcome.reply)
    } else {
        Entry::Waits(command)
    }
}

/// Leaves the queue as a turn with these outcomes leaves it, and takes its own of them.
pub(crate) fn settle<C: Command, V: Drop>(
    entries: &mut VecDeque<Entry<C, V>>,
    outcomes: &mut VecDeque<Outcome<V>>,
)
    ensures entries { entries.new.items ≡ settled C.overlaps entries.old.items outcomes.old.items }
    ensures outcomes { outcomes.new.items ≡ drop (length (waiting entries.old.items)) outcomes.old.items }
{
    let count = entries.len();
    let mut told = Vec::new(*entries.allocator());
    'entries: for i in 0..count {
        let Some(entry) = entries.pop_front() else {
            break;
        };
        let left = match entry {
            Entry::Waits(command) => settle_one(
                command,
                entries,
                count - 1 - i,
                outcomes,
                &mut told,
            ),
            Entry::Reads(reply) => Entry::Reads(reply),
        };
        entries.push_back_reserved(left);
    }
}
