//! The core of a proxy that makes a cluster look like one server to many guests. It does no input and no
//! output: commands come in, those that wait go out as one turn, and each guest takes its replies in
//! their order.
#![tactic(auto)]

mod calls;
mod command;
mod done;
mod guest_queue;
mod guests;
mod laws;
mod limits;
mod outcome;
mod play;
mod proxy;
mod queue;
mod refusal;
mod servers;
mod verdicts;

pub use command::{Bytes, Command};
pub use laws::{asks_once, each_sees_its_own, keeps_order, stays_within};
pub use limits::{Limits, Room};
pub use outcome::{Fate, Outcome};
pub use play::{Answer, Call};
pub use proxy::Proxy;
pub use queue::Entry;
pub use refusal::{JoinRefusal, Refusal, Refused};
pub use servers::{Servers, Waiting};
