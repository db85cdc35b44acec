//! A proxy: the guests, and what it holds of each.
use crate::command::Bytes;
use crate::guest_queue::GuestQueue;
use crate::limits::Limits;
use std::marker::Model;

/// A cluster as one server for many guests. A guest is a number; what the proxy holds of it is a queue:
/// commands that wait, and replies that it did not take, in the order of its commands.
///
/// A contract sees the queue of each guest and whether it is there, by its number, and the limits.
#[derive(Drop)]
pub struct Proxy<C: Bytes, V: Bytes> {
    pub(crate) guests: Vec<GuestQueue<C, V>>,
    pub(crate) limits: Limits,
}

impl<C: Bytes, V: Bytes> Model for Proxy<C, V> {
    ghost use Rattle.std.specs.List.{AllByRecursion};
    ghost use Rattle.proxy_core.specs.Guests.{IsCounted};
    ghost use Rattle.proxy_core.specs.Seen.{state_of};
    ghost use Rattle.proxy_core.specs.State.{State};

    ghost Value = { State C V };

    ghost view = { λ p. state_of p.guests.items p.limits };

    ghost invariant = { λ p. AllByRecursion (IsCounted C.bytes V.bytes) p.guests.items };
}
