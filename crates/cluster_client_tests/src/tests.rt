//! What no session shows: replies read as other types, strategies, and what a client tells of itself.
mod answers;
mod at_once;
mod directed;
mod each_position;
mod limits;
mod links;
mod pipelines;
mod reads;
mod streams;
mod transactions;
