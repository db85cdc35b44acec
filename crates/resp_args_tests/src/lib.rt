//! What no clause says: that calls succeed, with values from outside.
#![tactic(auto)]

#[cfg(test)]
mod tests;
