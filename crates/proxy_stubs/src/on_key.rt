//! Commands at a key.
ghost use Rattle.std.proofs.Common.{rules};
ghost use Rattle.std.specs.Prelude.{◌==◌, ◌∷◌, []};

use proxy_core::{Bytes, Command};

/// A command of ten bytes at a key.
#[derive(Drop)]
pub struct OnKey {
    pub key: u8,
}

impl Bytes for OnKey {
    ghost bytes = { λ command. 10 };

    fn bytes(&self) -> usize {
        10
    }
}

impl Command for OnKey {
    ghost overlaps = { λ a b. a.key == b.key };

    ghost slots = { λ command. command.key ∷ [] };

    ghost overlaps_by_slots = { λ a b. Prim.search rules };

    fn overlaps(&self, later: &OnKey) -> bool {
        self.key == later.key
    }

    fn slot(&self, index: usize) -> Option<u64> {
        if index == 0 {
            Some(u64::from(self.key))
        } else {
            None
        }
    }
}
