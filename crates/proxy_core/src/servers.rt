//! Who answers the commands.
ghost use Rattle.std.specs.Prelude.{◌≡◌, [], ◌++◌, length, vec_len, IfOk, OnErr};
ghost use Rattle.proxy_core.specs.Batch.{Asks, asked_by, batch_of};
ghost use Rattle.proxy_core.specs.Queue.{waiting};

use crate::outcome::Outcome;
use crate::queue::Entry;
use std::alloc::{AllocError, Global};
use std::collections::VecDeque;

/// A command that waits, lent to the servers, and its guest.
#[derive(Clone, Copy)]
pub struct Waiting<'a, C> {
    pub guest: usize,
    pub command: &'a C,
}

/// The servers as a proxy sees them.
pub trait Servers<C, V> {
    // what a call may do: the servers before it, what it asks of whom, in order, its outcomes, and the
    // servers after it
    ghost asks: { Asks Self C V };

    /// Asks all of the batch, those of one guest in their order, and answers one outcome for each. Where
    /// memory is refused before anything was written nothing is asked; behind that each command has an
    /// outcome.
    fn ask(
        &mut self,
        alloc: Global,
        batch: &[Waiting<'_, C>],
    ) -> Result<Vec<Outcome<V>>, AllocError>
        ensures one_each { IfOk result (λ outcomes. vec_len outcomes ≡ length batch.now) }
        ensures asked { IfOk result (λ outcomes. asks self.old (batch_of batch.now) outcomes.items self.new) }
        ensures refused { OnErr result (asks self.old [] [] self.new) };
}

/// Adds what waits of one guest to a batch.
pub(crate) fn gather_guest<'a, C, V>(
    batch: Vec<Waiting<'a, C>>,
    guest: usize,
    entries: &'a VecDeque<Entry<C, V>>,
) -> Result<Vec<Waiting<'a, C>>, AllocError>
    ensures { IfOk result (λ all. batch_of all.items
        ≡ batch_of batch.entry.items ++ asked_by guest (waiting entries.now.items)) }
{
    let mut all = batch;
    'entries: for i in 0..entries.len() {
        match &entries[i] {
            Entry::Reads(_) => {}
            Entry::Waits(command) => all.push(Waiting { guest, command })?,
        }
    }
    Ok(all)
}
