//! A guest's connection to a proxy: bytes in any pieces become its commands, and its replies bytes.
#![tactic(auto)]

mod connection;
mod laws;
mod pending;
mod progress;
mod translator;

pub use connection::Connection;
pub use laws::{over_is_whole, reads_in_order, turns_are_told};
pub use progress::Progress;
pub use translator::{Translator, Written};
