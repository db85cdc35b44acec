//! What a crate outside may do with the links, and that it succeeds; the groups of requests to few and to many.
#![tactic(auto)]

#[cfg(test)]
mod tests;
