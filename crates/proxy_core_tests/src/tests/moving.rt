//! Servers that tell one key's commands another fate for a while.
use proxy_core::{Bytes, Fate, Outcome, Servers, Waiting};
use proxy_stubs::OnKey;
use std::alloc::{AllocError, Global};

/// A reply of one byte.
#[derive(Drop)]
pub(crate) struct Reply(pub(crate) u8);

impl Bytes for Reply {
    ghost bytes = { λ reply. 1 };

    fn bytes(&self) -> usize {
        1
    }
}

/// What a guest reads of a command that was not answered.
pub(crate) const ERROR: u8 = 255;

/// Servers that tell commands at `key` the fate in so many calls, of each the first one alone or all;
/// each other command is answered.
#[derive(Drop)]
pub(crate) struct Moving {
    pub(crate) key: u8,
    pub(crate) fate: Fate,
    pub(crate) calls: u8,
    pub(crate) first_only: bool,
}

impl Moving {
    /// Servers that answer every command.
    pub(crate) fn answering() -> Moving {
        Moving {
            key: 0,
            fate: Fate::Answered,
            calls: 0,
            first_only: false,
        }
    }

    /// Servers that tell commands at key 7 this fate in their first call.
    pub(crate) fn once_at_seven(fate: Fate, first_only: bool) -> Moving {
        Moving {
            key: 7,
            fate,
            calls: 1,
            first_only,
        }
    }

    fn outcome(&self, command: &OnKey, met: bool) -> Outcome<Reply> {
        let is_moved = command.key == self.key && self.calls > 0 && !(met && self.first_only);
        if is_moved {
            Outcome {
                fate: self.fate,
                reply: Reply(ERROR),
            }
        } else {
            Outcome {
                fate: Fate::Answered,
                reply: Reply(command.key),
            }
        }
    }
}

impl Servers<OnKey, Reply> for Moving {
    ghost asks = { λ old batch outcomes new. Unit {0} };

    fn ask(
        &mut self,
        alloc: Global,
        batch: &[Waiting<'_, OnKey>],
    ) -> Result<Vec<Outcome<Reply>>, AllocError> {
        let mut outcomes = Vec::new(alloc);
        let mut met = false;
        'batch: for i in 0..batch.len() {
            let command = batch[i].command;
            outcomes.push(self.outcome(command, met))?;
            met = met || command.key == self.key;
        }
        self.calls = self.calls.saturating_sub(1);
        Ok(outcomes)
    }
}
