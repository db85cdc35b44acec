//! A proxy with the connections of its guests: bytes of many guests in, and to each of them its own replies out.
#![tactic(auto)]

mod calls;
mod connections;
mod frontend;
mod laws;
mod play;

pub use frontend::Frontend;
pub use laws::each_reads_its_own;
pub use play::{Answer, Call};
