//! The guests of a proxy, by their numbers, and what a turn does to all of them.
ghost use Rattle.std.specs.Prelude.{◌≡◌, ◌≤◌, ◌<◌, [], ◌⊎◌, length, vec_len, slice_set, IfOk, OnErr};
ghost use Rattle.std.specs.List.{AllByRecursion};
ghost use Rattle.proxy_core.specs.Batch.{all_settled, batch_from, batch_of};
ghost use Rattle.proxy_core.specs.Guests.{IsCounted, free_from, openings, queues};

use crate::command::{Bytes, Command};
use crate::guest_queue::{GuestQueue, settle_guest};
use crate::outcome::Outcome;
use crate::servers::{Servers, Waiting, gather_guest};
use std::alloc::{AllocError, Global};
use std::collections::VecDeque;

/// What waits of all guests, guest behind guest.
fn gather<C, V>(
    alloc: Global,
    guests: &[GuestQueue<C, V>],
) -> Result<Vec<Waiting<'_, C>>, AllocError>
    ensures { IfOk result (λ batch. batch_of batch.items ≡ batch_from 0 (queues guests.now)) }
{
    let mut batch = Vec::new(alloc);
    'guests: for i in 0..guests.len() {
        batch = gather_guest(batch, i, &guests[i].entries)?;
    }
    Ok(batch)
}

/// Asks the servers what waits.
pub(crate) fn ask_waiting<C, V, S: Servers<C, V>>(
    alloc: Global,
    guests: &[GuestQueue<C, V>],
    servers: &mut S,
) -> Result<Vec<Outcome<V>>, AllocError>
    ensures one_each { IfOk result (λ outcomes. vec_len outcomes
        ≡ length (batch_from 0 (queues guests.now))) }
    ensures asked { IfOk result (λ outcomes. S.asks servers.old
        (batch_from 0 (queues guests.now)) outcomes.items servers.new) }
    ensures refused { OnErr result ((servers.new ≡ servers.old) ⊎ S.asks servers.old [] [] servers.new) }
{
    let batch = gather(alloc, guests)?;
    servers.ask(alloc, &batch)
}

/// Settles each guest's queue by its own outcomes, which stand guest behind guest.
pub(crate) fn settle_all<C: Command, V: Bytes>(
    guests: &mut [GuestQueue<C, V>],
    outcomes: VecDeque<Outcome<V>>,
)
    requires { AllByRecursion (IsCounted C.bytes V.bytes) guests.old }
    ensures queues { queues guests.new ≡ all_settled C.overlaps (queues guests.old) outcomes.items }
    ensures openings { openings guests.new ≡ openings guests.old }
    ensures counted { AllByRecursion (IsCounted C.bytes V.bytes) guests.new }
{
    let mut left = outcomes;
    'guests: for i in 0..guests.len() {
        settle_guest(&mut guests[i], &mut left);
    }
}

/// Drops what is held of a guest, which is there from now on or not.
pub(crate) fn renew<C: Bytes, V: Bytes>(
    alloc: Global,
    guests: &mut [GuestQueue<C, V>],
    guest: usize,
    is_there: bool,
)
    requires there { guest < length guests.old }
    requires counted { AllByRecursion (IsCounted C.bytes V.bytes) guests.old }
    ensures queues { queues guests.new ≡ slice_set (queues guests.old) guest [] }
    ensures openings { openings guests.new ≡ slice_set (openings guests.old) guest is_there }
    ensures counted { AllByRecursion (IsCounted C.bytes V.bytes) guests.new }
{
    guests[guest] = GuestQueue {
        open: is_there,
        bytes: 0,
        entries: VecDeque::new(alloc),
    };
}

/// The first number that no guest has.
pub(crate) fn free_number<C, V>(guests: &[GuestQueue<C, V>]) -> usize
    ensures number { result ≡ free_from 0 (openings guests.now) }
    ensures within { result ≤ length guests.now }
{
    'guests: for i in 0..guests.len() {
        if !guests[i].open {
            return i;
        }
    }
    guests.len()
}
