//! Addresses of nodes.

ghost use Rattle.std.specs.Prelude.{◌≡◌, ◌^◌, [], IfOk, option_map};
ghost use Rattle.std.specs.String.{string_bytes};
ghost use Rattle.cluster_routing.specs.Address.{address_of, address_read, address_with, cut_last, without_end, without_front};
ghost use Rattle.resp_core.specs.Numbers.{number_below};
ghost use Rattle.cluster_routing.specs.Refusals.{Reads};
ghost use Rattle.cluster_routing.specs.Seen.{address, addresses};

use resp_core::{Cause, RedisError};
use std::alloc::{AllocError, Global};
use std::fmt;

/// The host and the port of a node.
///
/// Addresses are ordered by the bytes of the host, and then by the port as a number; order,
/// equality and hash agree. `Display` writes `host:port`. (Documentation of the crate `redis`.)
#[derive(Debug, PartialEq, Eq, PartialOrd, Ord, Hash, Drop)]
pub struct NodeAddress {
    host: String,
    port: u16,
}

impl NodeAddress {
    /// The address of this host and port. The host may be any text. It takes no memory.
    pub fn new(host: String, port: u16) -> NodeAddress
        ensures { address result ≡ record { host = string_bytes host; port = port } }
    {
        NodeAddress { host, port }
    }

    /// The address of these parts, as `new` makes it. It takes no memory.
    pub fn from_parts(host: String, port: u16) -> NodeAddress
        ensures { address result ≡ record { host = string_bytes host; port = port } }
    {
        NodeAddress::new(host, port)
    }

    /// An address with an empty host and port 0, the crate's default. It takes no memory.
    pub fn empty(alloc: Global) -> NodeAddress
        ensures { address result ≡ record { host = []; port = 0 } }
    {
        NodeAddress::new(String::new(alloc), 0)
    }

    /// The address that a text spells.
    ///
    /// The text is cut at its last `:`. Behind it stands the port, a `u16` as Rust reads it (so a
    /// plus before the digits is taken). Before it stands the host, without each `[` at its start
    /// and each `]` at its end.
    ///
    /// # Errors
    /// `UnreadableAddress` where there is no `:`, the port is none, or the host is empty, whatever
    /// memory does; `Memory` where the text spells an address and the host's copy is refused.
    pub fn try_from(alloc: Global, text: &str) -> Result<NodeAddress, RedisError>
        ensures { Reads (address_read text.now) result }
    {
        match cut(text) {
            None => Err(RedisError::from(Cause::UnreadableAddress)),
            Some(parts) => from_host_and_port(alloc, parts.0, parts.1),
        }
    }

    /// The host.
    pub fn host(&self) -> &str
        ensures { result.now ≡ (address self.now).host }
    {
        self.host.as_str()
    }

    /// The port.
    pub fn port(&self) -> u16
        ensures { result ≡ (address self.now).port }
    {
        self.port
    }

    /// An equal address.
    ///
    /// # Errors
    /// `AllocError` where the host's copy is refused.
    pub fn clone(&self) -> Result<NodeAddress, AllocError>
        ensures { IfOk result (λ copy. address copy ≡ address self.now) }
    {
        Ok(NodeAddress {
            host: self.host.clone()?,
            port: self.port,
        })
    }
}

impl fmt::Display for NodeAddress {
    ghost use Rattle.std.specs.Prelude.{Some};
    ghost use Rattle.cluster_routing.specs.Address.{written};
    ghost use Rattle.cluster_routing.specs.Seen.{address};

    ghost output = { λ a. Some (written (address a)) };

    fn fmt<W: fmt::Write>(&self, f: &mut fmt::Formatter<W>) -> fmt::Result {
        write!(f, "{}:{}", self.host, self.port)
    }
}

/// Equal addresses in the same order.
pub(crate) fn copies_of(
    alloc: Global,
    nodes: &[NodeAddress],
) -> Result<Vec<NodeAddress>, AllocError>
    ensures { IfOk result (λ v. addresses v.items ≡ addresses nodes.now) }
{
    let mut copies = Vec::new(alloc);
    'nodes: for node in nodes {
        copies.push(node.clone()?)?;
    }
    Ok(copies)
}

fn from_host_and_port(alloc: Global, host: &str, port: &str) -> Result<NodeAddress, RedisError>
    ensures { Reads (address_of (host.now, port.now)) result }
{
    match port_of(port) {
        None => Err(RedisError::from(Cause::UnreadableAddress)),
        Some(port) => from_plain_host(alloc, without_closing(without_opening(host)), port),
    }
}

fn from_plain_host(alloc: Global, host: &str, port: u16) -> Result<NodeAddress, RedisError>
    ensures { Reads (address_with port host.now) result }
{
    if host.is_empty() {
        return Err(RedisError::from(Cause::UnreadableAddress));
    }
    let host = String::from_str(alloc, host)?;
    Ok(NodeAddress { host, port })
}

/// The text before the last colon, and the text behind it.
fn cut(text: &str) -> Option<(&str, &str)>
    ensures { option_map (λ parts. (parts.0.now, parts.1.now)) result ≡ cut_last 58 text.now }
{
    text.rsplit_once(':')
}

fn port_of(text: &str) -> Option<u16>
    ensures { result ≡ number_below (2 ^ 16) text.now }
{
    text.parse::<u16>().ok()
}

fn without_opening(text: &str) -> &str
    ensures { result.now ≡ without_front 91 text.now }
{
    text.trim_start_matches('[')
}

fn without_closing(text: &str) -> &str
    ensures { result.now ≡ without_end 93 text.now }
{
    text.trim_end_matches(']')
}
