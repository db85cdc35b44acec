//! Known replies, and what no clause says: printed texts and refused memory.
#![tactic(auto)]

#[cfg(test)]
mod tests;
