//! Requests: the commands that a client's bytes spell, as a Redis server takes them.
#![tactic(auto)]

mod argument;
mod error;
mod fault;
mod laws;
mod limits;
mod line;
mod number;
mod reader;
mod stop;
mod words;

pub use error::RequestError;
pub use fault::Fault;
pub use laws::{any_pieces, examples, one_after_another};
pub use limits::Limits;
pub use reader::RequestReader;
