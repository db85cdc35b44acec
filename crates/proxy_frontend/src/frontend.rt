//! A frontend: a proxy and the connections of its guests.
use proxy_connection::Connection;
use proxy_core::{Bytes, Proxy};
use resp_requests::Limits;
use std::marker::Model;

/// A proxy with the connections of its guests. A guest is known by its number alone, and has one connection from
/// `join` to `leave`.
///
/// A contract sees the connections by their guests' numbers, the proxy, and what a guest may send.
#[derive(Drop)]
pub struct Frontend<T, C: Bytes, V: Bytes> {
    pub(crate) proxy: Proxy<C, V>,
    pub(crate) connections: Vec<Option<Connection<T, C, V>>>,
    pub(crate) limits: Limits,
}

impl<T, C: Bytes, V: Bytes> Model for Frontend<T, C, V> {
    ghost use Rattle.proxy_frontend.specs.State.{State, state_of};

    ghost Value = { State T C V };

    ghost view = { λ f. state_of f.connections.items f.proxy f.limits };
}
