//! The arguments of commands, what writes them, and what replies are read as.
#![tactic(auto)]

mod arguments;
mod cmd;
pub mod command;
pub mod comparisons;
mod from;
pub mod laws;
mod packing;
mod to_args;
mod wire;
mod write;

pub use arguments::ArgsIter;
pub use cmd::{Arg, Cmd};
pub use from::{Count, FieldName, FromRedisValue, Number, from_redis_value, from_redis_value_ref};
pub use packing::{pack_command, pack_command_into};
pub use to_args::{ToRedisArgs, ToSingleRedisArg};
pub use write::RedisWrite;
