//! Known replies, and what no clause says: printed texts and refused memory.
mod deep;
mod errors;
mod known;
mod limits;
mod machine;
mod memory;
mod texts;
mod values;
mod writes;
