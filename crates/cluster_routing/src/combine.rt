//! One reply from the replies to the parts of a split command, or from those of several nodes.

mod arrays;
mod logical;
mod maps;
mod nodes;
mod numbers;
mod parts;
mod permutation;
mod places;

pub use arrays::combine_array_results;
pub use logical::logical_aggregate;
pub use maps::combine_map_results;
pub use nodes::combine_nodes;
pub use numbers::aggregate;
pub use parts::combine_parts;
pub use permutation::is_permutation;
pub use places::combine_and_sort_array_results;
