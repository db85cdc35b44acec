//! Servers that send the commands of one key on, once.
use crate::on_key::OnKey;
use proxy_core::{Fate, Outcome, Servers, Waiting};
use std::alloc::{AllocError, Global};

/// Servers that answer the name of a key; in the first call a command at `m` is sent on.
#[derive(Drop)]
pub struct Moving {
    has_moved: bool,
}

impl Moving {
    /// Before the first call.
    pub fn new() -> Moving {
        Moving { has_moved: false }
    }
}

impl Servers<OnKey, Vec<u8>> for Moving {
    ghost asks = { λ old batch outcomes new. Unit {0} };

    fn ask(
        &mut self,
        alloc: Global,
        batch: &[Waiting<'_, OnKey>],
    ) -> Result<Vec<Outcome<Vec<u8>>>, AllocError> {
        let mut outcomes = Vec::new(alloc);
        'batch: for i in 0..batch.len() {
            let key = batch[i].command.key;
            let is_moved = key == b'm' && !self.has_moved;
            let fate = if is_moved {
                Fate::Redirected
            } else {
                Fate::Answered
            };
            let reply = Vec::from_slice(alloc, &[b'+', key, b'\r', b'\n'])?;
            outcomes.push(Outcome { fate, reply })?;
        }
        self.has_moved = true;
        Ok(outcomes)
    }
}
