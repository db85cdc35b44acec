//! A strategy with what it picked.
use cluster_routing::NodeAddress;

/// A strategy, where there is one, and the nodes that it picked, for one part after another.
#[derive(Drop)]
pub struct Picker<S> {
    pub strategy: Option<S>,
    pub picked: Vec<NodeAddress>,
}
