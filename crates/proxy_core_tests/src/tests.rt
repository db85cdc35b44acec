//! Runs of a proxy before made-up servers.
mod keys;
mod memory;
mod mixed;
mod moving;
mod runs;
mod turns;
