//! A command as a call sends it.
ghost use Rattle.std.proofs.Props.{props};
ghost use Rattle.std.specs.Prelude.{◌≡◌, [], IfSome};
ghost use Rattle.cluster_routing.specs.Directions.{direction as direction_of, shown_direction};

use cluster_routing::Direction;
use resp_args::Cmd;

/// A command as it is sent: its parts in the order given, where one is, and where any node may serve
/// it, to the one with this number.
#[derive(Clone, Copy)]
pub(crate) struct CommandCall<'a, 'o> {
    pub command: &'a Cmd,
    /// Where it goes by no names that only read, where that is known.
    pub direction: Option<&'a Direction>,
    pub order: Option<&'o [usize]>,
    pub number: u64,
    ghost directed: { IfSome direction
        (λ d. shown_direction d.now ≡ direction_of command.now.args []) } by { Prim.hlevel props },
}
