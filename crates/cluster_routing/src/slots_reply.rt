//! Asking a node for the map of slots, and reading its reply.

ghost use Rattle.std.specs.Prelude.{◌≡◌, ◌∷◌, ◌++◌, [], codes, map, None, option_map, IfOk};
ghost use Rattle.std.specs.String.{string_bytes};
ghost use Rattle.resp_args.specs.Command.{new_command};
ghost use Rattle.resp_args.specs.declared.cmd.Arg.TheVariants.{Simple};
ghost use Rattle.resp_core.specs.View.{view};
ghost use Rattle.cluster_routing.specs.Seen.{address, addresses};
ghost use Rattle.cluster_routing.specs.SlotsReply.{array_items, host_in, listed_host, listed_node, listed_nodes, listed_range, listed_ranges, node_of, range_of, range_with, ranges, small_number, with_range};

use crate::address::NodeAddress;
use crate::range::SlotRange;
use resp_args::Cmd;
use resp_core::Value;
use std::alloc::{AllocError, Global};

/// The command `CLUSTER SLOTS`. (Redis command documentation.)
///
/// # Errors
/// `AllocError` where memory is refused.
pub fn slot_cmd(alloc: Global) -> Result<Cmd, AllocError>
    ensures { IfOk result (λ c. c ≡ record new_command
        { args = Simple (codes "CLUSTER") ∷ Simple (codes "SLOTS") ∷ [] }) }
{
    let mut cmd = Cmd::new(alloc);
    cmd.arg("CLUSTER")?;
    cmd.arg("SLOTS")?;
    Ok(cmd)
}

/// The ranges that a reply to `CLUSTER SLOTS` lists, in its order; `host` is that of the node that
/// answered. (Redis command documentation, CLUSTER SLOTS.)
///
/// A reply that is no array lists none. A row is an array of start, end and nodes; reading stops
/// at the first item that is none. A row whose start or end is no integer from 0 to 65535 is
/// skipped. A node is an array of host, port and more, which is ignored; it is left out where it
/// is none, has no port from 0 to 65535, or has a host that is neither a bulk nor nil, or is `?`.
/// The host is read as lossy UTF-8; an empty or nil one is that of the node that answered. The
/// first node is the primary, and a row without nodes is skipped.
///
/// # Errors
/// `AllocError` where memory is refused.
pub fn parse_slots(alloc: Global, value: &Value, host: &str) -> Result<Vec<SlotRange>, AllocError>
    ensures { IfOk result (λ v. v.items ≡ ranges (view value.now) host.now) }
{
    match items_of(value) {
        Some(rows) => rows_of(alloc, rows, host),
        None => Ok(Vec::new(alloc)),
    }
}

fn rows_of(alloc: Global, rows: &[Value], host: &str) -> Result<Vec<SlotRange>, AllocError>
    ensures { IfOk result (λ v. v.items ≡ listed_ranges host.now (map view rows.now)) }
{
    let mut listed = Vec::new(alloc);
    for row in rows {
        match items_of(row) {
            None => return Ok(listed),
            Some(items) => push_row(alloc, &mut listed, items, host)?,
        }
    }
    Ok(listed)
}

/// The items of an array.
pub(crate) fn items_of(value: &Value) -> Option<&[Value]>
    ensures { option_map (λ items. map view items.now) result ≡ array_items (view value.now) }
{
    match value {
        Value::Array(items) => Some(items),
        _ => None,
    }
}

/// Adds the range of a row, where it is not skipped.
fn push_row(
    alloc: Global,
    listed: &mut Vec<SlotRange>,
    items: &[Value],
    host: &str,
) -> Result<(), AllocError>
    ensures { IfOk result
        (λ _. listed.new.items ≡ listed.old.items
        ++ with_range (listed_range host.now (map view items.now)) []) }
{
    match range_in(alloc, items, host)? {
        None => {}
        Some(range) => listed.push(range)?,
    }
    Ok(())
}

fn range_in(alloc: Global, items: &[Value], host: &str) -> Result<Option<SlotRange>, AllocError>
    ensures { IfOk result (λ o. o ≡ listed_range host.now (map view items.now)) }
{
    match items {
        [start, end, nodes @ ..] => {
            let nodes = nodes_of(alloc, nodes, host)?;
            Ok(range_of(small_number(start), small_number(end), nodes))
        }
        _ => Ok(None),
    }
}

/// An integer from 0 to 65535.
fn small_number(value: &Value) -> Option<u16>
    ensures { result ≡ small_number (view value.now) }
{
    match value {
        Value::Int(n) => u16::try_from(*n).ok(),
        _ => None,
    }
}

fn range_of(start: Option<u16>, end: Option<u16>, nodes: Vec<NodeAddress>) -> Option<SlotRange>
    ensures { result ≡ range_of start end (addresses nodes.items) }
{
    match (start, end) {
        (Some(start), Some(end)) => range_with(start, end, nodes),
        _ => None,
    }
}

/// The first node is the primary.
fn range_with(start: u16, end: u16, mut nodes: Vec<NodeAddress>) -> Option<SlotRange>
    ensures { result ≡ range_with start end (addresses nodes.items) }
{
    if nodes.is_empty() {
        return None;
    }
    let primary = nodes.remove(0);
    Some(SlotRange::new(start, end, primary, nodes))
}

fn nodes_of(alloc: Global, nodes: &[Value], host: &str) -> Result<Vec<NodeAddress>, AllocError>
    ensures { IfOk result (λ v. addresses v.items ≡ listed_nodes host.now (map view nodes.now)) }
{
    let mut listed = Vec::new(alloc);
    for node in nodes {
        push_node(alloc, &mut listed, node, host)?;
    }
    Ok(listed)
}

/// Adds a node, where it is not left out.
fn push_node(
    alloc: Global,
    listed: &mut Vec<NodeAddress>,
    node: &Value,
    host: &str,
) -> Result<(), AllocError>
    ensures { IfOk result
        (λ _. addresses listed.new.items ≡ addresses listed.old.items
        ++ listed_nodes host.now (view node.now ∷ [])) }
{
    match node_in(alloc, node, host)? {
        None => {}
        Some(node) => listed.push(node)?,
    }
    Ok(())
}

fn node_in(alloc: Global, node: &Value, host: &str) -> Result<Option<NodeAddress>, AllocError>
    ensures { IfOk result (λ o. option_map (λ a. address a) o ≡ listed_node host.now (view node.now)) }
{
    match items_of(node) {
        Some([name, port, ..]) => {
            let host = host_of(alloc, name, host)?;
            Ok(node_of(host, small_number(port)))
        }
        _ => Ok(None),
    }
}

fn node_of(host: Option<String>, port: Option<u16>) -> Option<NodeAddress>
    ensures { option_map (λ a. address a) result ≡ node_of (option_map (λ h. string_bytes h) host) port }
{
    match (host, port) {
        (Some(host), Some(port)) => Some(NodeAddress::new(host, port)),
        _ => None,
    }
}

/// The host that a node is listed with.
fn host_of(alloc: Global, name: &Value, asked: &str) -> Result<Option<String>, AllocError>
    ensures { IfOk result (λ o. option_map (λ h. string_bytes h) o ≡ listed_host asked.now (view name.now)) }
{
    match name {
        Value::Nil => Ok(Some(String::from_str(alloc, asked)?)),
        Value::BulkString(bytes) => host_in(alloc, bytes, asked),
        _ => Ok(None),
    }
}

fn host_in(alloc: Global, name: &[u8], asked: &str) -> Result<Option<String>, AllocError>
    ensures { IfOk result (λ o. option_map (λ h. string_bytes h) o ≡ host_in asked.now name.now) }
{
    if name.is_empty() {
        return Ok(Some(String::from_str(alloc, asked)?));
    }
    if name == b"?".as_slice() {
        return Ok(None);
    }
    Ok(Some(String::from_utf8_lossy(alloc, name)?))
}
