//! The commands of a transaction that is not asked yet.
ghost use Rattle.std.proofs.Props.{props};
ghost use Rattle.std.specs.Prelude.{◌≡◌, ◌<◌, ◌∷◌, ◌++◌, [], vec_capacity, vec_len, OnErr, OnOk};
ghost use Rattle.cluster_routing.specs.Directions.{direction as direction_of, shown_direction};
ghost use Rattle.cluster_client.specs.InParts.{AreDirected};

use crate::along::ask_along;
use crate::block::flat_by;
use cluster_client::{ClusterClient, Cmd, ConnectionLike, Direction, RedisError, Value};
use std::alloc::{AllocError, Global};

/// Where a command of a transaction goes.
#[derive(Clone, Copy, Debug, PartialEq, Eq)]
pub(crate) enum Place {
    /// To the primary of this slot.
    Slot(u16),
    /// To that of several slots, which no transaction has.
    Several,
    /// Along with the others, or to any primary.
    Any,
}

/// Where a command goes in a transaction; `None` where it goes to several nodes.
pub(crate) fn place_of(direction: &Direction) -> Option<Place> {
    match direction {
        Direction::Slot(route) => Some(Place::Slot(route.slot())),
        Direction::Parts(parts) => match parts.routes.as_slice() {
            [(route, _)] => Some(Place::Slot(route.slot())),
            _ => Some(Place::Several),
        },
        Direction::AnyNode | Direction::Nowhere(_) => Some(Place::Any),
        Direction::AllNodes(_) | Direction::AllPrimaries(_) => None,
    }
}

/// Commands since MULTI, in the form in which they wait for nothing, each with where it goes.
#[derive(Drop)]
pub(crate) struct Queued {
    commands: Vec<Cmd>,
    directions: Vec<Direction>,
    /// How many lists in the reply to each give way to their items.
    depths: Vec<u8>,
    /// How many bytes they take.
    pub(crate) bytes: usize,
    /// Whether one behind MULTI was refused.
    pub(crate) is_aborted: bool,
    /// The slot of those that have keys.
    slot: Option<u16>,
    /// Whether one goes along, so that it has no slot of its own.
    goes_along: bool,
    ghost directed: { AreDirected commands.items directions.items } by { Prim.hlevel props },
    ghost direction_count: { vec_len directions ≡ vec_len commands } by { Prim.hlevel props },
    ghost depth_count: { vec_len depths ≡ vec_len commands } by { Prim.hlevel props },
}

impl Queued {
    pub(crate) fn new(alloc: Global) -> Queued {
        Queued {
            commands: Vec::new(alloc),
            directions: Vec::new(alloc),
            depths: Vec::new(alloc),
            bytes: 0,
            is_aborted: false,
            slot: None,
            goes_along: false,
        }
    }

    pub(crate) fn is_empty(&self) -> bool {
        self.commands.is_empty()
    }

    /// Whether a command may stand behind these: it has their slot, if it has one.
    pub(crate) fn agrees(&self, place: Place) -> bool {
        match (place, self.slot) {
            (Place::Several, _) => false,
            (Place::Slot(slot), Some(known)) => slot == known,
            _ => true,
        }
    }

    /// Makes room for one more. Where memory is refused nothing changes.
    fn make_room(&mut self, alloc: Global) -> Result<(), AllocError>
        ensures err { OnErr result (self.new ≡ self.old) }
        ensures commands_kept { self.new.commands.items ≡ self.old.commands.items }
        ensures depths_kept { self.new.depths.items ≡ self.old.depths.items }
        ensures commands { OnOk result (vec_len self.new.commands < vec_capacity self.new.commands) }
        ensures directions { OnOk result (vec_len self.new.directions < vec_capacity self.new.directions) }
        ensures depths { OnOk result (vec_len self.new.depths < vec_capacity self.new.depths) }
    {
        let count = self.commands.len();
        if count < self.commands.capacity()
            && count < self.directions.capacity()
            && count < self.depths.capacity()
        {
            return Ok(());
        }
        let room = count + count / 2 + 4;
        let mut commands = Vec::with_capacity(alloc, room)?;
        let mut directions = Vec::with_capacity(alloc, room)?;
        let mut depths = Vec::with_capacity(alloc, room)?;
        commands.append(&mut self.commands).unwrap();
        directions.append(&mut self.directions).unwrap();
        depths.append(&mut self.depths).unwrap();
        self.commands = commands;
        self.directions = directions;
        self.depths = depths;
        Ok(())
    }

    /// Adds a command behind the others. Where memory is refused nothing changes.
    pub(crate) fn add(
        &mut self,
        alloc: Global,
        command: Cmd,
        direction: Direction,
        place: Place,
        depth: u8,
    ) -> Result<(), AllocError>
        requires { shown_direction direction ≡ direction_of command.args [] }
        ensures command { OnOk result (self.new.commands.items ≡ self.old.commands.items ++ command ∷ []) }
        ensures depth { OnOk result (self.new.depths.items ≡ self.old.depths.items ++ depth ∷ []) }
        ensures err { OnErr result (self.new ≡ self.old) }
    {
        let bytes = command.get_packed_command()?.len();
        self.make_room(alloc)?;
        self.commands.push(command).unwrap();
        self.directions.push(direction).unwrap();
        self.depths.push(depth).unwrap();
        self.bytes = self.bytes.saturating_add(bytes);
        match place {
            Place::Slot(slot) => self.slot = Some(slot),
            Place::Several | Place::Any => self.goes_along = true,
        }
        Ok(())
    }

    /// Whether the reply to one of them is made anew.
    fn has_depth(&self) -> bool {
        for depth in &self.depths {
            if *depth > 0 {
                return true;
            }
        }
        false
    }

    fn ask_all<L: ConnectionLike + Drop>(
        &self,
        alloc: Global,
        client: &mut ClusterClient<L>,
    ) -> Result<Value, RedisError> {
        if self.goes_along {
            ask_along(alloc, client, &self.commands, self.slot)
        } else {
            client.transaction_directed(alloc, &self.commands, &self.directions)
        }
    }

    /// Asks them as one transaction.
    pub(crate) fn ask<L: ConnectionLike + Drop>(
        &self,
        alloc: Global,
        client: &mut ClusterClient<L>,
    ) -> Result<Value, RedisError> {
        let told = self.ask_all(alloc, client)?;
        if !self.has_depth() {
            return Ok(told);
        }
        let Value::Array(items) = told else {
            return Ok(told);
        };
        let mut flat = Vec::with_capacity(alloc, items.len())?;
        for (item, depth) in items.into_iter().zip(self.depths.iter()) {
            flat.push(flat_by(alloc, *depth, item)?)?;
        }
        Ok(Value::Array(flat))
    }
}
