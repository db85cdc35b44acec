//! The log of requests.
ghost use Rattle.std.specs.Prelude.{◌≡◌, ◌<◌, length, map, IfOk, Some};
ghost use Rattle.cluster_routing.specs.Info.{texts};
ghost use Rattle.cluster_calls.specs.Links.Log.{last_of};
ghost use Rattle.cluster_calls.specs.Links.Request.{Request as Logged};

use crate::dispatch::Dispatch;
use crate::hop::Hop;
use crate::request::Request;
use cluster_routing::NodeAddress;
use std::alloc::{AllocError, Global};
use std::marker::Model;

/// A request that was sent, or whose sending was begun.
#[derive(Debug, Drop)]
pub struct Asked {
    /// The node that it went to.
    pub node: NodeAddress,
    /// Its arguments as they stand on the wire.
    pub args: Vec<Vec<u8>>,
    /// Whether `ASKING` went before it, in the same write.
    pub asking: bool,
}

impl Model for Asked {
    ghost use Rattle.std.specs.Prelude.{map};
    ghost use Rattle.cluster_routing.specs.Seen.{address};
    ghost use Rattle.cluster_calls.specs.Links.Request.{Request};

    ghost Value = { Request };

    ghost view = { λ a. record
        { node = address a.node; args = map (λ arg. arg.items) a.args.items; asking = a.asking } };
}

/// The last request of the log once more, by this hop; its arguments are copied.
pub fn sent_again(alloc: Global, log: &[Asked], hop: Hop) -> Result<Dispatch, AllocError>
    requires { 0 < length log.now }
    ensures hop { IfOk result (λ d. d.to ≡ hop) }
    ensures args { IfOk result (λ d. (q : Logged) → last_of log.now ≡ Some q → texts d.args.items ≡ q.args) }
{
    let last = &log[log.len() - 1];
    Ok(Request {
        to: hop,
        args: copied(alloc, &last.args)?,
    })
}

/// The arguments once more.
fn copied(alloc: Global, args: &[Vec<u8>]) -> Result<Vec<Vec<u8>>, AllocError>
    ensures { IfOk result (λ v. map (λ arg. arg.items) v.items ≡ map (λ arg. arg.items) args.now) }
{
    let mut copies = Vec::new(alloc);
    for arg in args {
        copies.push(Vec::from_slice(alloc, arg)?)?;
    }
    Ok(copies)
}
