//! What a call over a cluster is: its parts and requests, the links that they go out on, its answer
//! or refusal, and the laws of whole runs, of which one is that a cluster answers like one server.
//!
//! The definitions stand in `specs`, over plain data, and know no code of the client; what the client
//! promises is said in their words. The laws are functions without a body, each of which has one as
//! its contract.
#![tactic(auto)]

pub mod laws;
