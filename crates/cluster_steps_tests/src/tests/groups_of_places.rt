//! The groups of requests are the same where few links are listed and where many are looked up.
ghost use Rattle.std.specs.Prelude.{◌≡◌, ◌<◌};
ghost use Rattle.cluster_steps.specs.Groups.{place_in};

use cluster_routing::NodeAddress;
use cluster_steps::dispatch::Dispatch;
use cluster_steps::grouped::{NumberedGroups, grouped};
use cluster_steps::hop::Hop;
use cluster_steps::request::Request;
use std::alloc::{AllocError, Global};
use std::process::Abort;
use std::test::Fail;

/// A request to the link at a place.
fn to(alloc: Global, link: usize) -> Dispatch
    ensures { place_in result ≡ link }
{
    Request {
        to: Hop {
            node: NodeAddress::new(String::new(alloc), 7000),
            link,
            asking: false,
        },
        args: Vec::new(alloc),
    }
}

/// The groups of requests to the links 2, 0, 2 and 1 of so many.
fn groups_among(alloc: Global, count: usize) -> Result<NumberedGroups, AllocError>
    requires { 2 < count }
{
    let dispatches = vec![in alloc; to(alloc, 2), to(alloc, 0), to(alloc, 2), to(alloc, 1)]?;
    grouped(alloc, count, dispatches)
}

/// The places of the groups stand in the order of first use, and each request tells of its group.
fn are_grouped<R: Abort>(rt: &R, alloc: Global, count: usize) -> Result<(), Fail>
    requires { 2 < count }
{
    let told = groups_among(alloc, count)?;
    let mut places = Vec::new(alloc);
    let mut lengths = Vec::new(alloc);
    for group in &told.groups {
        places.push(group.link)?;
        lengths.push(group.requests.len())?;
    }
    assert_eq!(rt; places.as_slice(), [2, 0, 1].as_slice());
    assert_eq!(rt; lengths.as_slice(), [2, 1, 1].as_slice());
    assert_eq!(rt; told.numbers.as_slice(), [0, 1, 0, 2].as_slice());
    Ok(())
}

#[test]
fn few_and_many_links_give_the_same_groups(rt: HostRuntime) -> Result<(), Fail> {
    let alloc = rt.alloc();
    are_grouped(&rt, alloc, 3)?;
    are_grouped(&rt, alloc, 70)
}
