//! Guests of a proxy before a cluster.
mod bytes;
mod guests;
mod memory;
mod pieces;
mod turns;
