//! A guest's queue, with its bytes counted, and whether the guest is there.
ghost use Rattle.std.specs.Prelude.{◌≡◌, ◌≤◌, ◌+◌, ◌++◌, ◌∷◌, [], drop, true, length, is_ok, is_some, if◌then◌else◌, IfErr, OnOk};
ghost use Rattle.proxy_core.specs.Guests.{IsCounted, entry_bytes, queue_bytes};
ghost use Rattle.proxy_core.specs.Moves.{IsDue};
ghost use Rattle.proxy_core.specs.Queue.{first_reply, settled, waiting};

use crate::command::{Bytes, Command};
use crate::limits::Room;
use crate::outcome::Outcome;
use crate::queue::{Entry, settle};
use crate::refusal::{Refusal, Refused};
use std::alloc::AllocFailed;
use std::collections::VecDeque;

/// The queue of a guest, and whether the guest is there.
#[derive(Drop)]
pub(crate) struct GuestQueue<C, V> {
    pub(crate) open: bool,
    pub(crate) bytes: u128,
    pub(crate) entries: VecDeque<Entry<C, V>>,
}

/// How many bytes a queue takes.
fn bytes_in<C: Bytes, V: Bytes>(entries: &VecDeque<Entry<C, V>>) -> u128
    ensures { result ≡ queue_bytes C.bytes V.bytes entries.now.items }
{
    let mut sum = 0;
    'entries: for i in 0..entries.len() {
        sum += entries[i].bytes() as u128;
    }
    sum
}

impl<C: Bytes, V: Bytes> GuestQueue<C, V> {
    /// Puts an entry behind the others, where the share has room for it.
    pub(crate) fn put(
        &mut self,
        share: Room,
        entry: Entry<C, V>,
    ) -> Result<(), Refused<Entry<C, V>>>
        ensures entries { self.new.entries.items
            ≡ (if is_ok result then self.old.entries.items ++ entry ∷ [] else self.old.entries.items) }
        ensures bytes { self.new.bytes
            ≡ (if is_ok result then self.old.bytes + entry_bytes C.bytes V.bytes entry else self.old.bytes) }
        ensures bounded { OnOk result (length self.new.entries.items ≤ share.entries) }
        ensures bytes_bounded { OnOk result (self.new.bytes ≤ share.bytes) }
        ensures value { IfErr result (λ refused. refused.value ≡ entry) }
        ensures why { IfErr result (λ refused. IsDue refused.why true share
            (length self.old.entries.items) self.old.bytes (entry_bytes C.bytes V.bytes entry)) }
        ensures still_open { self.new.open ≡ self.old.open }
    {
        let size = entry.bytes();
        if share.entries <= self.entries.len() {
            return Err(Refused {
                why: Refusal::Full,
                value: entry,
            });
        }
        if (share.bytes as u128) < self.bytes {
            return Err(Refused {
                why: Refusal::Full,
                value: entry,
            });
        }
        if share.bytes as u128 - self.bytes < size as u128 {
            return Err(Refused {
                why: Refusal::Full,
                value: entry,
            });
        }
        match self.entries.push_back(entry) {
            Ok(()) => {
                self.bytes += size as u128;
                Ok(())
            }
            Err(AllocFailed { value, .. }) => Err(Refused {
                why: Refusal::NoMemory,
                value,
            }),
        }
    }

    /// Takes the first reply, where no command waits before it.
    pub(crate) fn take(&mut self) -> Option<V>
        requires { IsCounted C.bytes V.bytes self.old }
        ensures first { result ≡ first_reply self.old.entries.items }
        ensures rest { self.new.entries.items
            ≡ (if is_some result then drop 1 self.old.entries.items else self.old.entries.items) }
        ensures counted { IsCounted C.bytes V.bytes self.new }
        ensures still_open { self.new.open ≡ self.old.open }
    {
        match self.entries.pop_front() {
            Some(Entry::Reads(reply)) => {
                self.bytes = self.bytes.saturating_sub(reply.bytes() as u128);
                Some(reply)
            }
            Some(Entry::Waits(command)) => {
                self.entries.push_front_reserved(Entry::Waits(command));
                None
            }
            None => None,
        }
    }
}

/// Leaves a guest's queue as a turn with these outcomes leaves it, and takes its own of them.
pub(crate) fn settle_guest<C: Command, V: Bytes>(
    guest: &mut GuestQueue<C, V>,
    outcomes: &mut VecDeque<Outcome<V>>,
)
    ensures entries { guest.new.entries.items
        ≡ settled C.overlaps guest.old.entries.items outcomes.old.items }
    ensures outcomes { outcomes.new.items
        ≡ drop (length (waiting guest.old.entries.items)) outcomes.old.items }
    ensures counted { IsCounted C.bytes V.bytes guest.new }
    ensures still_open { guest.new.open ≡ guest.old.open }
{
    settle(&mut guest.entries, outcomes);
    guest.bytes = bytes_in(&guest.entries);
}
