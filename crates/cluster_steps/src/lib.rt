//! The steps of a call, for a client over links: its parts are routed and placed, requests go out over
//! a link and are written to the log, and a reply is the answer, a refusal, or leads on.
#![tactic(auto)]

pub mod asked;
pub mod at_once;
pub mod attempt;
pub mod attempt_turn;
pub mod dispatch;
pub mod drawn;
pub mod each;
pub mod exchange;
pub mod grouped;
pub mod hop;
pub mod join;
pub mod known_links;
pub mod links;
pub mod node_links;
pub mod numbered_map;
mod numbers;
pub mod order;
pub mod picker;
pub mod pipeline_reads;
pub mod read_checks;
pub mod read_parts;
pub mod read_reply;
pub mod ready;
pub mod reply;
pub mod request;
pub mod route;
pub mod slots;
pub mod turn;
