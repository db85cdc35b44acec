//! A cluster client as the servers of a proxy. What waits of all guests goes out as one pipeline, or command
//! by command where redirects have to be followed, and each command comes back with its fate and the bytes
//! that its guest reads.
#![tactic(auto)]

mod alone;
mod command;
mod laws;
mod reply;
mod servers;
mod together;

pub use command::GuestCommand;
pub use laws::{fates_of_one_command, fates_of_several};
pub use reply::Reply;
pub use servers::ClusterServers;
