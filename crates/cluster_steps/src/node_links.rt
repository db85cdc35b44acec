//! Links as the steps use them: they are found by the addresses of their nodes, and called.
ghost use Rattle.std.specs.Prelude.{◌≡◌, ◌<◌, Some, false, length, option_map, slice_get, IfSome, MatchOption};
ghost use Rattle.resp_core.specs.View.{view};
ghost use Rattle.cluster_routing.specs.Seen.{address};
ghost use Rattle.cluster_calls.specs.Links.World.{open_links, is_linked, place_at, CallsLink, Called, one_reply, tree_result, tree_results};
ghost use Rattle.cluster_calls.specs.Links.Places.{IsOpenAt};

use cluster_routing::NodeAddress;
use resp_core::{RedisError, Value};
use std::alloc::Global;

/// The replies that a link call is to answer: so many, behind the first ones, which it drops.
#[derive(Clone, Copy)]
pub struct Wanted {
    pub offset: usize,
    pub count: usize,
}

/// The links of a client, one for each node.
pub trait NodeLinks {
    ghost use Rattle.std.specs.Prelude.{List};
    ghost use Rattle.cluster_calls.specs.Links.World.{Node};

    /// The nodes, with what a contract sees of their links.
    ghost nodes: { Self → List Node };

    /// The place of a node.
    fn place_of(&self, node: &NodeAddress) -> Option<usize>
        ensures place { result ≡ place_at (nodes self.now) (address node.now) }
        ensures within { IfSome result (λ link. link < length (nodes self.now)) };

    /// Whether the link at this place is open.
    fn is_open_at(&self, index: usize) -> bool
        requires { index < length (nodes self.now) }
        ensures { option_map (λ (node : Node). node.link.usable) (slice_get (nodes self.now) index) ≡ Some result };

    /// One link call of the node at this place: it sends the bytes, and answers the replies that are
    /// wanted.
    fn call(
        &mut self,
        alloc: Global,
        link: usize,
        bytes: &[u8],
        wanted: Wanted,
    ) -> Result<Vec<Value>, RedisError>
        requires { link < length (nodes self.old) }
        ensures call { CallsLink (nodes self.old) (nodes self.new) link
            (λ before after. Called before after bytes.now wanted.offset wanted.count
            (tree_results view result)) }
        ensures len { length (nodes self.new) ≡ length (nodes self.old) };

    /// One link call of the node at this place for one reply: it sends the bytes, and answers their reply.
    fn call_one(&mut self, alloc: Global, link: usize, bytes: &[u8]) -> Result<Value, RedisError>
        requires { link < length (nodes self.old) }
        ensures call { CallsLink (nodes self.old) (nodes self.new) link
            (λ before after. Called before after bytes.now 0 1 (one_reply (tree_result view result))) }
        ensures len { length (nodes self.new) ≡ length (nodes self.old) };

    /// The place of a node whose link is open.
    fn open_place(&self, node: &NodeAddress) -> Option<usize>
        ensures place { MatchOption result
            (is_linked (open_links (nodes self.now)) (address node.now) ≡ false)
            (λ link. IsOpenAt (nodes self.now) (address node.now) link) }
        ensures within { IfSome result (λ link. link < length (nodes self.now)) }
    {
        let Some(link) = self.place_of(node) else {
            return None;
        };
        if self.is_open_at(link) {
            Some(link)
        } else {
            None
        }
    }
}
