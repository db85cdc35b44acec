//! Sentences and ranges by examples.
mod add;
mod claims;
mod commands;
mod config;
mod join;
mod memory;
mod read;
mod real_replies;
mod records;
mod trim;
mod writing;
