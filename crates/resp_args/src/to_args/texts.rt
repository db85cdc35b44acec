//! Texts as arguments.
ghost use Rattle.std.specs.Prelude.{[], ◌∷◌, string_bytes, refl};

use crate::to_args::{ToRedisArgs, ToSingleRedisArg};
use crate::write::RedisWrite;
use std::alloc::AllocError;

impl ToRedisArgs for String {
    ghost args = { λ s. string_bytes s ∷ [] };

    fn write_redis_args<W: RedisWrite>(&self, out: &mut W) -> Result<(), AllocError> {
        out.write_arg(self.as_bytes())
    }

    fn slice_as_bytes(_items: &[String]) -> Option<&[u8]> {
        None
    }
}

impl ToSingleRedisArg for String {
    ghost arg = { string_bytes };

    ghost one_argument = { λ s. refl };
}

impl ToRedisArgs for &str {
    ghost args = { λ s. s.now ∷ [] };

    fn write_redis_args<W: RedisWrite>(&self, out: &mut W) -> Result<(), AllocError> {
        out.write_arg(self.as_bytes())
    }

    fn slice_as_bytes(_items: &[Self]) -> Option<&[u8]> {
        None
    }
}

impl ToSingleRedisArg for &str {
    ghost arg = { λ s. s.now };

    ghost one_argument = { λ s. refl };
}
