//! What a guest asks of the cluster.
ghost use Rattle.std.specs.Prelude.{◌≡◌, refl};
ghost use Rattle.cluster_servers.specs.Slots.{slots_of};
ghost use Rattle.proxy_core.specs.Slots.{overlap};

use crate::block::Block;
use crate::queued::Queued;
use crate::way::{Way, argument_count, is_word};
use cluster_client::Cmd;
use cluster_servers::GuestCommand;
use proxy_core::{Bytes, Command};
use resp_core::Protocol;
use std::alloc::{AllocError, Global};

/// How the cluster is asked.
#[derive(Drop)]
pub(crate) enum How {
    /// With what waits of other guests.
    Together,
    /// By itself, behind all that its guest asked before.
    Alone(Way),
    /// As a transaction, behind all that its guest asked before.
    Exec(Queued),
    /// Again and again until there is something to take, behind all that its guest asked before. The guest
    /// has this id.
    Wait(Block, i64),
}

/// A command of a guest, and the protocol in which the guest reads its reply.
#[derive(Drop)]
pub(crate) struct Ask {
    pub(crate) command: GuestCommand,
    pub(crate) how: How,
    pub(crate) protocol: Protocol,
    bytes: usize,
}

impl Ask {
    /// A command that goes to the nodes of its keys' slots.
    pub(crate) fn together(
        alloc: Global,
        command: Cmd,
        protocol: Protocol,
    ) -> Result<Ask, AllocError> {
        let command = GuestCommand::new(alloc, command, protocol)?;
        let bytes = command.bytes();
        Ok(Ask {
            command,
            how: How::Together,
            protocol,
            bytes,
        })
    }

    /// A command that is asked by itself.
    pub(crate) fn alone(
        alloc: Global,
        way: Way,
        command: Cmd,
        protocol: Protocol,
    ) -> Result<Ask, AllocError> {
        Ok(Ask::together(alloc, command, protocol)?.into_alone(way))
    }

    /// The same, asked by itself.
    pub(crate) fn into_alone(self, way: Way) -> Ask {
        Ask {
            command: self.command,
            how: How::Alone(way),
            protocol: self.protocol,
            bytes: self.bytes,
        }
    }

    /// A command that waits, of the guest of an id.
    pub(crate) fn wait(
        alloc: Global,
        block: Block,
        id: i64,
        command: Cmd,
        protocol: Protocol,
    ) -> Result<Ask, AllocError> {
        let command = GuestCommand::new(alloc, command, protocol)?;
        let bytes = command.bytes().saturating_mul(3);
        Ok(Ask {
            command,
            how: How::Wait(block, id),
            protocol,
            bytes,
        })
    }

    /// The same, as the EXEC of these commands.
    pub(crate) fn with_queued(self, queued: Queued) -> Ask {
        let bytes = self.bytes.saturating_add(queued.bytes);
        Ask {
            command: self.command,
            how: How::Exec(queued),
            protocol: self.protocol,
            bytes,
        }
    }

    /// Whether a server tells nil as a list that is none, where the protocol has both.
    pub(crate) fn has_no_list(&self) -> bool {
        match self.how {
            How::Together => tells_no_list(self.command.command()),
            How::Wait(..) => true,
            How::Alone(_) | How::Exec(_) => false,
        }
    }
}

/// Whether a server tells nil in place of a list: of what pops from several keys, or a count of items, and of
/// what reads streams.
fn tells_no_list(command: &Cmd) -> bool {
    for word in [b"LMPOP".as_slice(), b"ZMPOP", b"XREAD", b"XREADGROUP"] {
        if is_word(command, 0, word) {
            return true;
        }
    }
    (is_word(command, 0, b"LPOP") || is_word(command, 0, b"RPOP")) && argument_count(command) > 2
}

impl Bytes for Ask {
    ghost bytes = { λ ask. ask.bytes };

    fn bytes(&self) -> usize {
        self.bytes
    }
}

impl Command for Ask {
    // One that is asked by itself has no slot of its own, and so overlaps each.
    ghost overlaps = { λ a b. overlap (slots_of a.command.command) (slots_of b.command.command) };

    ghost slots = { λ ask. slots_of ask.command.command };

    ghost overlaps_by_slots = { λ a b. refl };

    fn overlaps(&self, later: &Ask) -> bool {
        self.command.overlaps(&later.command)
    }

    fn slot(&self, index: usize) -> Option<u64> {
        self.command.slot(index)
    }
}
