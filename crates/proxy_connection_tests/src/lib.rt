//! Guests by their bytes, before made-up servers.
#![tactic(auto)]

#[cfg(test)]
mod tests;
