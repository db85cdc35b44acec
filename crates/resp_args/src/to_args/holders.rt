//! What holds other values as arguments: options, lists and references.
ghost use Rattle.std.specs.Prelude.{[], ◌∷◌, refl};
ghost use Rattle.std.specs.Option.{option_map_or};
ghost use Rattle.resp_args.specs.Writing.{slice_args};

use crate::to_args::{ToRedisArgs, ToSingleRedisArg};
use crate::write::RedisWrite;
use std::alloc::AllocError;

/// Nothing for `None`.
impl<T: ToRedisArgs> ToRedisArgs for Option<T> {
    ghost args = { λ o. option_map_or T.args o [] };

    fn write_redis_args<W: RedisWrite>(&self, out: &mut W) -> Result<(), AllocError> {
        match self {
            None => Ok(()),
            Some(value) => value.write_redis_args(out),
        }
    }

    fn slice_as_bytes(_items: &[Option<T>]) -> Option<&[u8]> {
        None
    }
}

/// The arguments of each item in turn; bytes are one argument.
impl<T: ToRedisArgs> ToRedisArgs for Vec<T> {
    ghost args = { λ v. slice_args T.args (T.slice_bytes v.items) v.items };

    fn write_redis_args<W: RedisWrite>(&self, out: &mut W) -> Result<(), AllocError> {
        T::write_args_from_slice(self.as_slice(), out)
    }

    fn slice_as_bytes(_items: &[Vec<T>]) -> Option<&[u8]> {
        None
    }
}

impl ToSingleRedisArg for Vec<u8> {
    ghost arg = { λ v. v.items };

    ghost one_argument = { λ v. refl };
}

/// The arguments of each item in turn; bytes are one argument.
impl<T: ToRedisArgs> ToRedisArgs for &[T] {
    ghost args = { λ s. slice_args T.args (T.slice_bytes s.now) s.now };

    fn write_redis_args<W: RedisWrite>(&self, out: &mut W) -> Result<(), AllocError> {
        T::write_args_from_slice(self, out)
    }

    fn slice_as_bytes(_items: &[Self]) -> Option<&[u8]> {
        None
    }
}

impl ToSingleRedisArg for &[u8] {
    ghost arg = { λ s. s.now };

    ghost one_argument = { λ s. refl };
}

/// The arguments of the value behind the reference.
impl<T: ToRedisArgs> ToRedisArgs for &T {
    ghost args = { λ s. T.args s.now };

    fn write_redis_args<W: RedisWrite>(&self, out: &mut W) -> Result<(), AllocError> {
        (*self).write_redis_args(out)
    }

    fn slice_as_bytes(_items: &[Self]) -> Option<&[u8]> {
        None
    }
}

impl<T: ToSingleRedisArg> ToSingleRedisArg for &T {
    ghost arg = { λ s. T.arg s.now };

    ghost one_argument = { λ s. T.one_argument s.now };
}
