//! Maps as arguments: key and value of each pair, in the order of the map.
ghost use Rattle.std.specs.List.{flat_map};
ghost use Rattle.std.specs.Prelude.{◌++◌};

use crate::to_args::ToRedisArgs;
use crate::to_args::tuples::write_two;
use crate::write::RedisWrite;
use indexmap::IndexMap;
use std::alloc::AllocError;
use std::hash::Hash;

/// Key and value of each pair in order.
impl<K: ToRedisArgs + Eq + Hash, V: ToRedisArgs> ToRedisArgs for IndexMap<K, V> {
    ghost args = { λ m. flat_map (λ e. K.args e.0 ++ V.args e.1) m.entries };

    fn write_redis_args<W: RedisWrite>(&self, out: &mut W) -> Result<(), AllocError> {
        for (key, value) in self.iter() {
            write_two(key, value, out)?;
        }
        Ok(())
    }

    fn slice_as_bytes(_items: &[IndexMap<K, V>]) -> Option<&[u8]> {
        None
    }
}
