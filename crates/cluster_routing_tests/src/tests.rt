//! What the crate answers at known values.
mod combine;
mod copies;
mod keys;
mod many_nodes;
mod maps;
mod memory;
mod names;
mod nodes;
mod routes;
mod strategies;
mod texts;
mod topology;
