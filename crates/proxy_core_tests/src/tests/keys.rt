//! Commands at several keys, and servers that tell each the fate that a list has for it.
ghost use Rattle.std.specs.Prelude.{◌≡◌};
ghost use Rattle.proxy_core.specs.Slots.{overlap};

use proxy_core::{Bytes, Command, Fate, Outcome, Servers, Waiting};
use std::alloc::{AllocError, Global};

/// A command of one byte at these keys; it may be at any where there is none.
#[derive(Drop)]
pub(crate) struct OnKeys {
    pub(crate) name: u16,
    pub(crate) keys: Vec<u64>,
}

impl Bytes for OnKeys {
    ghost bytes = { λ command. 1 };

    fn bytes(&self) -> usize {
        1
    }
}

/// Whether commands at these keys share one, or one of them may be at any.
fn overlap(keys: &[u64], others: &[u64]) -> bool
    ensures { result ≡ overlap keys.now others.now }
{
    if keys.is_empty() || others.is_empty() {
        return true;
    }
    'keys: for key in keys {
        if others.contains(key) {
            return true;
        }
    }
    false
}

impl Command for OnKeys {
    ghost use Rattle.std.specs.Prelude.{refl};
    ghost use Rattle.proxy_core.specs.Slots.{overlap};

    ghost overlaps = { λ a b. overlap a.keys.items b.keys.items };

    ghost slots = { λ command. command.keys.items };

    ghost overlaps_by_slots = { λ a b. refl };

    fn overlaps(&self, later: &OnKeys) -> bool {
        overlap(&self.keys, &later.keys)
    }

    fn slot(&self, index: usize) -> Option<u64> {
        self.keys.get(index).copied()
    }
}

/// A reply: in which turn it came, 0 where the proxy answered by itself, and to which command.
#[derive(Drop)]
pub(crate) struct Said {
    pub(crate) turn: u16,
    pub(crate) name: u16,
}

impl Bytes for Said {
    ghost bytes = { λ said. 1 };

    fn bytes(&self) -> usize {
        1
    }
}

/// Servers that tell the commands of their first call these fates, and answer all later ones.
#[derive(Drop)]
pub(crate) struct Fates {
    pub(crate) fates: Vec<Fate>,
    pub(crate) turn: u16,
}

impl Servers<OnKeys, Said> for Fates {
    ghost asks = { λ old batch outcomes new. Unit {0} };

    fn ask(
        &mut self,
        alloc: Global,
        batch: &[Waiting<'_, OnKeys>],
    ) -> Result<Vec<Outcome<Said>>, AllocError> {
        let turn = self.turn.saturating_add(1);
        let mut outcomes = Vec::new(alloc);
        'batch: for i in 0..batch.len() {
            let fate = self.fates.get(i).copied().unwrap_or(Fate::Answered);
            outcomes.push(Outcome {
                fate,
                reply: Said {
                    turn,
                    name: batch[i].command.name,
                },
            })?;
        }
        self.turn = turn;
        self.fates.clear();
        Ok(outcomes)
    }
}
