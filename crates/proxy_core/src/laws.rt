//! Laws of proxies.
ghost use Rattle.proxy_core.specs.Laws.{AsksOnce, KeepsOrder};
ghost use Rattle.proxy_core.specs.Sees.{EachSeesItsOwn};
ghost use Rattle.proxy_core.specs.Shares.{StaysWithin};

use crate::command::{Bytes, Command};
use crate::servers::Servers;

/// Over every run of calls, whatever the other guests do: what a guest took, and behind it what the proxy
/// holds of it, is what it sees of its own entries and outcomes.
pub fn each_sees_its_own<C: Command, V: Bytes, S: Servers<C, V>>()
    ensures { EachSeesItsOwn C.overlaps C.bytes V.bytes S.asks }
{}

/// A command that may have been done is not asked again.
pub fn asks_once<C: Command, V>()
    ensures { AsksOnce V C.overlaps }
{}

/// A command is not asked again where a later one of its guest, whose order to it can be seen, may have
/// been done.
pub fn keeps_order<C: Command, V>()
    ensures { KeepsOrder V C.overlaps }
{}

/// A run that begins within the limits ends within them: no guest has more entries than a share, and no
/// more guests are there than may be.
pub fn stays_within<C: Command, V: Bytes, S: Servers<C, V>>()
    ensures { StaysWithin C.overlaps C.bytes V.bytes S.asks }
{}
