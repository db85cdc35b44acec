//! Copies of a topology, of redirects, and of where a command goes.

use crate::tests::routes::cmd;
use crate::tests::texts::{is_text, shows};
use crate::tests::topology::topology_text;
use cluster_routing::{ClusterTopology, NodeAddress, Redirect, RoutingInfo, Shard};
use resp_core::RedisError;
use std::alloc::{AllocError, Global};
use std::process::Abort;
use std::test::Fail;

fn shard(
    alloc: Global,
    slots: (u16, u16),
    primary: &str,
    replica: &str,
) -> Result<Shard, RedisError> {
    let primary = NodeAddress::try_from(alloc, primary)?;
    let replicas = vec![in alloc; NodeAddress::try_from(alloc, replica)?]?;
    Ok(Shard::new(vec![in alloc; slots]?, primary, replicas))
}

fn two_shards(alloc: Global) -> Result<ClusterTopology, RedisError> {
    let low = shard(alloc, (0, 99), "n1:7001", "n3:7003")?;
    let high = shard(alloc, (200, 299), "n2:7002", "n4:7004")?;
    Ok(ClusterTopology::from_shards(alloc, vec![in alloc; low, high]?)?)
}

#[test]
fn copies_a_topology(rt: HostRuntime) -> Result<(), Fail> {
    let copy = two_shards(rt.alloc())?.clone()?;
    let wanted =
        "[(0, 99)] n1:7001 [NodeAddress { host: \"n3\", port: 7003 }]\n[(200, 299)] n2:7002 [NodeAddress { host: \"n4\", port: 7004 }]\n";
    is_text(&rt, topology_text(rt.alloc(), &copy), wanted);
    Ok(())
}

/// The copy equals what it was made of, and differs from the other.
fn is_copied<R: Abort>(rt: &R, info: &RoutingInfo, other: &RoutingInfo) -> Result<(), AllocError> {
    let copy = info.clone()?;
    assert!(rt; copy == *info);
    assert!(rt; copy != *other);
    Ok(())
}

fn route(alloc: Global, words: &[&str]) -> Result<RoutingInfo, Fail> {
    let command = cmd(alloc, words)?;
    Ok(RoutingInfo::for_routable(alloc, &command, &[])?.ok_or("no route")?)
}

#[test]
fn copies_routes(rt: HostRuntime) -> Result<(), Fail> {
    let split = route(rt.alloc(), &["MGET", "a", "b", "a"])?;
    let one = route(rt.alloc(), &["GET", "a"])?;
    is_copied(&rt, &split, &one)?;
    is_copied(&rt, &one, &split)?;
    Ok(())
}

#[test]
fn copies_a_redirect(rt: HostRuntime) -> Result<(), Fail> {
    let moved = Redirect::Moved(NodeAddress::try_from(rt.alloc(), "n1:7001")?);
    let wanted = "Moved(NodeAddress { host: \"n1\", port: 7001 })";
    shows(&rt, rt.alloc(), &moved.clone()?, wanted);
    Ok(())
}
