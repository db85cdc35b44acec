//! What a client tells of itself, and answers later, where a read, a write or a request for memory is refused.
#![tactic(auto)]

#[cfg(test)]
mod tests;
