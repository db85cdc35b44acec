//! Laws of frontends.
ghost use Rattle.proxy_connection.specs.Ways.{ways};
ghost use Rattle.proxy_frontend.specs.Laws.{EachReadsItsOwn};

use proxy_connection::{Translator, Written};
use proxy_core::{Command, Servers};

/// Over every run of calls, whatever the other guests do: what is written to a guest are the replies to its own
/// commands, in order, each whole, but for the rest of the last.
pub fn each_reads_its_own<T: Translator<C, V>, C: Command, V: Written, S: Servers<C, V>>()
    ensures { EachReadsItsOwn (ways C.overlaps V.written T.Translator) C.bytes V.bytes S.asks }
{}
