//! The calls of a proxy.
ghost use Rattle.std.specs.Prelude.{◌≡◌, ◌≤◌, ◌<◌, ◌++◌, ◌∷◌, [], ◌⊎◌, false, true, length, IfOk, IfErr, OnOk, OnErr, MatchOption};
ghost use Rattle.proxy_core.specs.declared.refusal.Refusal.TheVariants.{NoMemory};
ghost use Rattle.proxy_core.specs.Guests.{free_from, is_open_at, queue_at, queue_bytes};
ghost use Rattle.proxy_core.specs.Moves.{HasRoomFor, IsJoinDue, IsPutDue, Puts, Renews, Takes, Turns};
ghost use Rattle.proxy_core.specs.Queue.{first_reply};

use crate::command::{Bytes, Command};
use crate::guest_queue::GuestQueue;
use crate::guests::{ask_waiting, free_number, renew, settle_all};
use crate::limits::Limits;
use crate::proxy::Proxy;
use crate::queue::Entry;
use crate::refusal::{JoinRefusal, Refusal, Refused};
use crate::servers::Servers;
use std::alloc::{AllocError, Global};
use std::collections::VecDeque;

impl<C: Command, V: Bytes> Proxy<C, V> {
    /// A proxy with no guest.
    pub fn new(alloc: Global, limits: Limits) -> Proxy<C, V>
        ensures none { result.queues ≡ [] }
        ensures nobody { result.openings ≡ [] }
        ensures limits { result.limits ≡ limits }
    {
        Proxy {
            guests: Vec::new(alloc),
            limits,
        }
    }

    /// Lets a guest in, and answers its number: the first one that no guest has. Where it is refused
    /// nothing has changed. The place of a guest that left takes no memory.
    pub fn join(&mut self, alloc: Global) -> Result<usize, JoinRefusal>
        ensures number { IfOk result (λ g. g ≡ free_from 0 self.old.openings) }
        ensures within { IfOk result (λ g. g < self.old.limits.guests) }
        ensures ok { IfOk result (λ g. Renews self.old self.new g true) }
        ensures why { IfErr result (λ why. IsJoinDue why self.old.openings self.old.limits.guests) }
        ensures err { OnErr result (self.new.queues ≡ self.old.queues) }
        ensures still_open { OnErr result (self.new.openings ≡ self.old.openings) }
        ensures limits { self.new.limits ≡ self.old.limits }
    {
        let number = free_number(&self.guests);
        if self.limits.guests <= number {
            return Err(JoinRefusal::Full);
        }
        if number < self.guests.len() {
            renew(alloc, &mut self.guests, number, true);
            return Ok(number);
        }
        match self.add(alloc) {
            Ok(()) => Ok(number),
            Err(AllocError) => Err(JoinRefusal::NoMemory),
        }
    }

    /// Lets a guest in behind the others.
    fn add(&mut self, alloc: Global) -> Result<(), AllocError>
        ensures queues { OnOk result (self.new.queues ≡ self.old.queues ++ [] ∷ []) }
        ensures openings { OnOk result (self.new.openings ≡ self.old.openings ++ true ∷ []) }
        ensures err { OnErr result (self.new.queues ≡ self.old.queues) }
        ensures still_open { OnErr result (self.new.openings ≡ self.old.openings) }
        ensures limits { self.new.limits ≡ self.old.limits }
    {
        self.guests.push(GuestQueue {
            open: true,
            bytes: 0,
            entries: VecDeque::new(alloc),
        })?;
        Ok(())
    }

    /// How many entries the proxy holds of a guest: commands that wait, and replies that it did not take.
    pub fn held(&self, guest: usize) -> usize
        ensures { result ≡ length (queue_at self.now.queues guest) }
    {
        if self.guests.len() <= guest {
            return 0;
        }
        self.guests[guest].entries.len()
    }

    /// Takes a command of a guest, or an answer of the proxy's own in the place of one. Where it is
    /// refused nothing has changed, and the entry comes back. What other guests hold is no cause: an
    /// entry that the guest's own share has room for is refused by want of memory alone.
    pub fn put(&mut self, guest: usize, entry: Entry<C, V>) -> Result<(), Refused<Entry<C, V>>>
        ensures is_open { OnOk result (is_open_at self.old.openings guest ≡ true) }
        ensures ok { OnOk result (Puts self.old.queues self.new.queues guest entry) }
        ensures bounded { OnOk result
            (length (queue_at self.new.queues guest) ≤ self.old.limits.share.entries) }
        ensures bytes_bounded { OnOk result
            (queue_bytes C.bytes V.bytes (queue_at self.new.queues guest) ≤ self.old.limits.share.bytes) }
        ensures entry { IfErr result (λ refused. refused.value ≡ entry) }
        ensures err { OnErr result (self.new.queues ≡ self.old.queues) }
        ensures why { IfErr result (λ refused. IsPutDue C.bytes V.bytes self.old.limits.share
            (queue_at self.old.queues guest) entry (is_open_at self.old.openings guest) refused.why) }
        ensures own_share { HasRoomFor C.bytes V.bytes self.old guest entry
            → IfErr result (λ refused. refused.why ≡ NoMemory) }
        ensures openings { self.new.openings ≡ self.old.openings }
        ensures limits { self.new.limits ≡ self.old.limits }
    {
        if self.guests.len() <= guest || !self.guests[guest].open {
            return Err(Refused {
                why: Refusal::NoGuest,
                value: entry,
            });
        }
        self.guests[guest].put(self.limits.share, entry)
    }

    /// Hands a guest its next reply: none where its first command waits.
    pub fn take(&mut self, guest: usize) -> Option<V>
        ensures first { result ≡ first_reply (queue_at self.old.queues guest) }
        ensures taken { MatchOption result (self.new.queues ≡ self.old.queues)
            (λ v. Takes self.old.queues self.new.queues guest v) }
        ensures openings { self.new.openings ≡ self.old.openings }
        ensures limits { self.new.limits ≡ self.old.limits }
    {
        if self.guests.len() <= guest {
            return None;
        }
        self.guests[guest].take()
    }

    /// Ends a guest, and drops what the proxy holds of it: its commands are not asked any more, and its
    /// number is free.
    pub fn leave(&mut self, alloc: Global, guest: usize)
        ensures ended { Renews self.old self.new guest false }
    {
        if self.guests.len() <= guest {
            return;
        }
        renew(alloc, &mut self.guests, guest, false);
    }

    /// Asks the servers all that waits, in one call, and leaves each guest's queue as its outcomes say.
    /// Where memory was refused no queue has changed, and the servers were not called or asked nothing.
    pub fn turn<S: Servers<C, V>>(
        &mut self,
        alloc: Global,
        servers: &mut S,
    ) -> Result<(), AllocError>
        ensures ok { OnOk result
            (Turns C.overlaps S.asks self.old.queues self.new.queues servers.old servers.new) }
        ensures err { OnErr result (self.new.queues ≡ self.old.queues) }
        ensures unasked { OnErr result ((servers.new ≡ servers.old) ⊎ S.asks servers.old [] [] servers.new) }
        ensures openings { self.new.openings ≡ self.old.openings }
        ensures limits { self.new.limits ≡ self.old.limits }
    {
        let outcomes = ask_waiting(alloc, &self.guests, servers)?;
        settle_all(&mut self.guests, VecDeque::from_vec(outcomes));
        Ok(())
    }
}
