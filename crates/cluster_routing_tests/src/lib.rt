//! What the crate answers at known values.
#![tactic(auto)]

#[cfg(test)]
mod tests;
