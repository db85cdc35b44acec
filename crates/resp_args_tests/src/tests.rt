//! What no clause says: that calls succeed, with values from outside.
mod commands;
mod conversions;
mod memory;
mod writers;
