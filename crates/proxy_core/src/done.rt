//! What was done in a turn behind a command.
ghost use Rattle.std.specs.Prelude.{◌≡◌, ◌||◌, ℕ, List, false, OnOk};
ghost use Rattle.proxy_core.specs.Done.{overtakes};
ghost use Rattle.proxy_core.specs.Slots.{overlap};

use crate::command::Command;
use std::alloc::{AllocError, Global};
use std::collections::BTreeSet;

/// Commands that may have been done: whether there is one, whether there is one without slots, and the
/// slots of all.
#[derive(Drop)]
pub(crate) struct Done {
    any: bool,
    any_without: bool,
    slots: BTreeSet<u64>,
}

impl Done {
    /// None.
    pub(crate) fn new(alloc: Global) -> Done
        ensures { (slots : List ℕ) → overtakes result slots ≡ false }
    {
        Done {
            any: false,
            any_without: false,
            slots: BTreeSet::new(alloc),
        }
    }

    /// Counts one more.
    pub(crate) fn add<C: Command>(&mut self, command: &C) -> Result<(), AllocError>
        ensures { OnOk result ((slots : List ℕ) → overtakes self.new slots
            ≡ (overlap slots (C.slots command.now) || overtakes self.old slots)) }
    {
        let mut index = 0;
        'slots: while let Some(slot) = command.slot(index) {
            self.slots.insert(slot)?;
            index += 1;
        }
        self.any = true;
        self.any_without = self.any_without || index == 0;
        Ok(())
    }

    /// Whether one of them overlaps the command.
    pub(crate) fn overtakes<C: Command>(&self, command: &C) -> bool
        ensures { result ≡ overtakes self.now (C.slots command.now) }
    {
        let mut index = 0;
        'slots: while let Some(slot) = command.slot(index) {
            if self.any_without || self.slots.contains(&slot) {
                return true;
            }
            index += 1;
        }
        index == 0 && self.any
    }
}
