//! Sentences and ranges by examples.
#![tactic(auto)]

#[cfg(test)]
mod tests;
