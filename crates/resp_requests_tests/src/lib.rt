//! Requests as a Redis server answered them, whole and in pieces.
#![tactic(auto)]

#[cfg(test)]
mod tests;
