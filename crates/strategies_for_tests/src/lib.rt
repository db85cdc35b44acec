//! A strategy for reads that tests share.
#![tactic(auto)]

mod nth;

pub use nth::Nth;
