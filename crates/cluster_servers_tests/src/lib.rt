//! Guests of a proxy before a cluster.
#![tactic(auto)]

#[cfg(test)]
mod tests;
