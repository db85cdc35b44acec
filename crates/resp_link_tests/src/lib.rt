//! Links over bytes in memory, and over readers and writers of std.
#![tactic(auto)]

#[cfg(test)]
mod tests;
