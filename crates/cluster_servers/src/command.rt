//! What a guest asks of the cluster.
ghost use Rattle.std.proofs.Props.{props};
ghost use Rattle.std.specs.Prelude.{◌≡◌, [], filter_map, length, map, nat_lt, IfOk};
ghost use Rattle.resp_args.specs.Packed.{packed, sent};
ghost use Rattle.cluster_routing.specs.Directions.{shown_direction};
ghost use Rattle.cluster_routing.specs.Directions as directions;
ghost use Rattle.cluster_routing.specs.Info.{shown_parts};
ghost use Rattle.cluster_steps.specs.CodeParts.{route_target};
ghost use Rattle.cluster_client.specs.InParts.{IsDirected};
ghost use Rattle.cluster_servers.specs.Slots.{slot_at, slots_of};
ghost use Rattle.proxy_core.specs.Slots.{overlap};

use cluster_client::Directed;
use cluster_routing::{Direction, Route};
use proxy_core::{Bytes, Command};
use resp_args::Cmd;
use resp_core::Protocol;
use std::alloc::{AllocError, Global};

/// A command of a guest, with where it goes, and the protocol in which the guest reads its reply.
#[derive(Drop)]
pub struct GuestCommand {
    pub(crate) command: Cmd,
    pub(crate) protocol: Protocol,
    direction: Direction,
    slots: Vec<u16>,
    bytes: usize,
    ghost directed: { shown_direction direction ≡ directions.direction command.args [] } by { Prim.hlevel props },
    ghost known: { slots.items ≡ slots_of command } by { Prim.hlevel props },
    ghost measured: { bytes ≡ length (packed (sent command)) } by { Prim.hlevel props },
}

impl GuestCommand {
    /// A command of a guest. It is refused only for want of memory.
    pub fn new(alloc: Global, command: Cmd, protocol: Protocol) -> Result<GuestCommand, AllocError>
        ensures command { IfOk result (λ c. c.command ≡ command) }
        ensures protocol { IfOk result (λ c. c.protocol ≡ protocol) }
    {
        let bytes = command.get_packed_command()?.len();
        let direction = Direction::for_routable(alloc, &command, &[])?;
        let slots = slots_of(alloc, &command, &direction)?;
        Ok(GuestCommand {
            command,
            protocol,
            direction,
            slots,
            bytes,
        })
    }

    /// The command.
    pub fn command(&self) -> &Cmd
        ensures { result.now ≡ self.now.command }
    {
        &self.command
    }

    /// Where it goes, by no names that only read.
    pub fn direction(&self) -> &Direction
        ensures { shown_direction result.now ≡ directions.direction self.now.command.args [] }
    {
        &self.direction
    }

    /// The command, lent with where it goes.
    pub fn directed(&self) -> Directed<'_>
        ensures command { result.command.now ≡ self.now.command }
        ensures directed { IsDirected result }
    {
        Directed {
            command: &self.command,
            direction: &self.direction,
        }
    }

    /// Whether it goes by its keys: to the node of their slot, or in parts to the nodes of several.
    pub fn has_slots(&self) -> bool
        ensures { result ≡ nat_lt 0 (length (slots_of self.now.command)) }
    {
        !self.slots.is_empty()
    }
}

/// The slots of a command's keys, by where it goes.
fn slots_of(alloc: Global, command: &Cmd, direction: &Direction) -> Result<Vec<u16>, AllocError>
    requires { shown_direction direction.now ≡ directions.direction command.now.args [] }
    ensures { IfOk result (λ slots. slots.items ≡ slots_of command.now) }
{
    if command.is_no_response() {
        return Ok(Vec::new(alloc));
    }
    match direction {
        Direction::Slot(route) => Vec::from_slice(alloc, &[route.slot()]),
        Direction::Parts(split) => slots_at(alloc, &split.routes),
        _ => Ok(Vec::new(alloc)),
    }
}

/// The slots of routes.
fn slots_at(alloc: Global, routes: &[(Route, Vec<usize>)]) -> Result<Vec<u16>, AllocError>
    ensures { IfOk result
        (λ slots. slots.items ≡ filter_map slot_at (map route_target (shown_parts routes.now))) }
{
    let mut slots = Vec::with_capacity(alloc, routes.len())?;
    'routes: for route in routes {
        slots.push(route.0.slot())?;
    }
    Ok(slots)
}

/// Whether two commands with keys in these slots share one, or one of them has no slot of its own.
fn overlap(slots: &[u16], others: &[u16]) -> bool
    ensures { result ≡ overlap slots.now others.now }
{
    if slots.is_empty() || others.is_empty() {
        return true;
    }
    'slots: for slot in slots {
        if others.contains(slot) {
            return true;
        }
    }
    false
}

impl Bytes for GuestCommand {
    ghost use Rattle.std.specs.Prelude.{length};
    ghost use Rattle.resp_args.specs.Packed.{packed, sent};

    ghost bytes = { λ c. length (packed (sent c.command)) };

    fn bytes(&self) -> usize {
        self.bytes
    }
}

impl Command for GuestCommand {
    ghost use Rattle.std.specs.Prelude.{refl};
    ghost use Rattle.cluster_servers.specs.Slots.{slots_of};
    ghost use Rattle.proxy_core.specs.Slots.{overlap};

    ghost overlaps = { λ c later. overlap (slots_of c.command) (slots_of later.command) };

    ghost slots = { λ c. slots_of c.command };

    ghost overlaps_by_slots = { λ a b. refl };

    fn overlaps(&self, later: &GuestCommand) -> bool {
        overlap(&self.slots, &later.slots)
    }

    fn slot(&self, index: usize) -> Option<u64> {
        match self.slots.get(index) {
            Some(slot) => Some(u64::from(*slot)),
            None => None,
        }
    }
}
