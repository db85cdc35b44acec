//! Replies that are made from numbers are read as they were read before.
#![tactic(auto)]

#[cfg(test)]
mod tests;
