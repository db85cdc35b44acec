//! Laws of connections.
ghost use Rattle.proxy_connection.specs.Laws.{OverIsWhole, ReadsInOrder, TurnsAreTold};
ghost use Rattle.proxy_connection.specs.Ways.{ways};

use crate::translator::{Translator, Written};
use proxy_core::Command;

/// A turn of the proxy leaves the connection, and settles the guest's queue by its own outcomes.
pub fn turns_are_told<T: Translator<C, V>, C: Command, V: Written>()
    ensures { TurnsAreTold (ways C.overlaps V.written T.Translator) }
{}

/// In whichever pieces the bytes came, the commands are the first of those that the bytes spell.
pub fn reads_in_order<T: Translator<C, V>, C: Command, V: Written>()
    ensures { ReadsInOrder (ways C.overlaps V.written T.Translator) }
{}

/// To a guest that is over all replies were written, one for each of its entries, as its outcomes tell them.
pub fn over_is_whole<T: Translator<C, V>, C: Command, V: Written>()
    ensures { OverIsWhole (ways C.overlaps V.written T.Translator) }
{}
