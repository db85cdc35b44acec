//! Replies that are made from numbers are read as they were read before.
mod answers;
mod former;
mod grammar;
mod made;
mod memory;
