//! What no session shows: replies read as other types, strategies, and what a client tells of itself.
#![tactic(auto)]

#[cfg(test)]
mod tests;
