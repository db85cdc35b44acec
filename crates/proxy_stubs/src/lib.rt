//! What the tests of a proxy share: commands at a key, guests that say them, and servers that answer them.
#![tactic(auto)]

mod moving;
mod on_key;
mod talk;

pub use moving::Moving;
pub use on_key::OnKey;
pub use talk::{Talk, take_in};
