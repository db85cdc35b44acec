//! What the words of guests mean: each command is asked of the cluster.
ghost use Rattle.std.specs.Prelude.{false};

use cluster_client::Cmd;
use cluster_servers::{GuestCommand, Reply};
use proxy_connection::Translator;
use proxy_core::Entry;
use resp_core::Protocol;
use resp_requests::Fault;
use std::alloc::{AllocError, Global};

/// The guest's protocol.
#[derive(Drop)]
pub struct Words {
    protocol: Protocol,
}

impl Words {
    pub fn new(protocol: Protocol) -> Words {
        Words { protocol }
    }
}

impl Translator<GuestCommand, Reply> for Words {
    ghost translates = { λ old words entry new. Unit {0} };

    ghost refuses = { λ words fault reply. Unit {0} };

    ghost has_ended = { λ words. false };

    fn translate(
        &mut self,
        alloc: Global,
        words: &[Vec<u8>],
    ) -> Result<Entry<GuestCommand, Reply>, AllocError> {
        let mut command = Cmd::new(alloc);
        for word in words {
            command.arg(word.as_slice())?;
        }
        let command = GuestCommand::new(alloc, command, self.protocol)?;
        Ok(Entry::Waits(command))
    }

    fn refuse(&self, alloc: Global, fault: Fault) -> Result<Reply, AllocError> {
        Ok(Reply::Written(fault.message(alloc)?))
    }

    fn has_ended(&self) -> bool {
        false
    }
}
