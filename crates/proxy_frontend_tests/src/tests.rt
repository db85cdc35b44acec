//! Many guests by their bytes, before made-up servers.
mod guests;
mod memory;
