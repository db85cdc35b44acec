//! What crates of tests share: clients over bytes in memory, calls on them, and a strategy.
#![tactic(auto)]

mod calls;
mod clients;
mod replicas;

pub use calls::{command_of, get_a, number_at_a, shown, xadd, xread};
pub use clients::{
    ALL_AT_N1, Client, HALVES, Link, Links, add_link, client_of_halves, client_of_two, has_sent,
    is_last_asked, is_refreshed, kind_of, link, node, refreshed, refreshed_of_two,
};
pub use replicas::{WITH_REPLICAS, client_of_replicas, refreshed_of_replicas};
pub use strategies_for_tests::Nth;
