//! Runs of a proxy before made-up servers.
#![tactic(auto)]

#[cfg(test)]
mod tests;
