//! Truth values and integers as arguments.
ghost use Rattle.std.specs.Prelude.{◌≡◌, ℕ, [], ◌∷◌, Some, codes, decimal, if◌then◌else◌, refl};
ghost use Rattle.std.specs.Fmt.{signed_decimal};
ghost use Rattle.resp_args.specs.Writing.{Writes};

use crate::to_args::{ToRedisArgs, ToSingleRedisArg};
use crate::write::RedisWrite;
use itoa::{Buffer, Integer};
use std::alloc::AllocError;

/// `1` for true and `0` for false.
impl ToRedisArgs for bool {
    ghost args = { λ b. (if b then codes "1" else codes "0") ∷ [] };

    fn write_redis_args<W: RedisWrite>(&self, out: &mut W) -> Result<(), AllocError> {
        out.write_arg(if *self { b"1" } else { b"0" })
    }

    fn slice_as_bytes(_items: &[bool]) -> Option<&[u8]> {
        None
    }
}

impl ToSingleRedisArg for bool {
    ghost arg = { λ b. if b then codes "1" else codes "0" };

    ghost one_argument = { λ b. refl };
}

/// An integer as one argument, in decimal.
fn write_number<N: Integer, W: RedisWrite>(number: N, out: &mut W) -> Result<(), AllocError>
    ensures writes { Writes result (W.written out.old) (N.text number ∷ []) (W.written out.new) }
    ensures keeps { W.beside out.new ≡ W.beside out.old }
{
    out.write_arg(Buffer::new().format(number).as_bytes())
}

/// A number by itself is written in decimal; a slice of bytes is one argument.
impl ToRedisArgs for u8 {
    ghost args = { λ n. decimal n ∷ [] };

    ghost slice_bytes = { λ bytes. Some bytes };

    fn write_redis_args<W: RedisWrite>(&self, out: &mut W) -> Result<(), AllocError> {
        write_number(*self, out)
    }

    fn slice_as_bytes(items: &[u8]) -> Option<&[u8]> {
        Some(items)
    }
}

impl ToSingleRedisArg for u8 {
    ghost arg = { λ n. decimal n };

    ghost one_argument = { λ n. refl };
}

impl ToRedisArgs for u16 {
    ghost args = { λ n. decimal n ∷ [] };

    fn write_redis_args<W: RedisWrite>(&self, out: &mut W) -> Result<(), AllocError> {
        write_number(*self, out)
    }

    fn slice_as_bytes(_items: &[u16]) -> Option<&[u8]> {
        None
    }
}

impl ToSingleRedisArg for u16 {
    ghost arg = { λ n. decimal n };

    ghost one_argument = { λ n. refl };
}

impl ToRedisArgs for u32 {
    ghost args = { λ n. decimal n ∷ [] };

    fn write_redis_args<W: RedisWrite>(&self, out: &mut W) -> Result<(), AllocError> {
        write_number(*self, out)
    }

    fn slice_as_bytes(_items: &[u32]) -> Option<&[u8]> {
        None
    }
}

impl ToSingleRedisArg for u32 {
    ghost arg = { λ n. decimal n };

    ghost one_argument = { λ n. refl };
}

impl ToRedisArgs for u64 {
    ghost args = { λ n. decimal n ∷ [] };

    fn write_redis_args<W: RedisWrite>(&self, out: &mut W) -> Result<(), AllocError> {
        write_number(*self, out)
    }

    fn slice_as_bytes(_items: &[u64]) -> Option<&[u8]> {
        None
    }
}

impl ToSingleRedisArg for u64 {
    ghost arg = { λ n. decimal n };

    ghost one_argument = { λ n. refl };
}

impl ToRedisArgs for usize {
    ghost args = { λ n. decimal n ∷ [] };

    fn write_redis_args<W: RedisWrite>(&self, out: &mut W) -> Result<(), AllocError> {
        write_number(*self, out)
    }

    fn slice_as_bytes(_items: &[usize]) -> Option<&[u8]> {
        None
    }
}

impl ToSingleRedisArg for usize {
    ghost arg = { λ n. decimal n };

    ghost one_argument = { λ n. refl };
}

impl ToRedisArgs for i8 {
    ghost args = { λ n. signed_decimal n ∷ [] };

    fn write_redis_args<W: RedisWrite>(&self, out: &mut W) -> Result<(), AllocError> {
        write_number(*self, out)
    }

    fn slice_as_bytes(_items: &[i8]) -> Option<&[u8]> {
        None
    }
}

impl ToSingleRedisArg for i8 {
    ghost arg = { λ n. signed_decimal n };

    ghost one_argument = { λ n. refl };
}

impl ToRedisArgs for i16 {
    ghost args = { λ n. signed_decimal n ∷ [] };

    fn write_redis_args<W: RedisWrite>(&self, out: &mut W) -> Result<(), AllocError> {
        write_number(*self, out)
    }

    fn slice_as_bytes(_items: &[i16]) -> Option<&[u8]> {
        None
    }
}

impl ToSingleRedisArg for i16 {
    ghost arg = { λ n. signed_decimal n };

    ghost one_argument = { λ n. refl };
}

impl ToRedisArgs for i32 {
    ghost args = { λ n. signed_decimal n ∷ [] };

    fn write_redis_args<W: RedisWrite>(&self, out: &mut W) -> Result<(), AllocError> {
        write_number(*self, out)
    }

    fn slice_as_bytes(_items: &[i32]) -> Option<&[u8]> {
        None
    }
}

impl ToSingleRedisArg for i32 {
    ghost arg = { λ n. signed_decimal n };

    ghost one_argument = { λ n. refl };
}

impl ToRedisArgs for i64 {
    ghost args = { λ n. signed_decimal n ∷ [] };

    fn write_redis_args<W: RedisWrite>(&self, out: &mut W) -> Result<(), AllocError> {
        write_number(*self, out)
    }

    fn slice_as_bytes(_items: &[i64]) -> Option<&[u8]> {
        None
    }
}

impl ToSingleRedisArg for i64 {
    ghost arg = { λ n. signed_decimal n };

    ghost one_argument = { λ n. refl };
}

impl ToRedisArgs for isize {
    ghost args = { λ n. signed_decimal n ∷ [] };

    fn write_redis_args<W: RedisWrite>(&self, out: &mut W) -> Result<(), AllocError> {
        write_number(*self, out)
    }

    fn slice_as_bytes(_items: &[isize]) -> Option<&[u8]> {
        None
    }
}

impl ToSingleRedisArg for isize {
    ghost arg = { λ n. signed_decimal n };

    ghost one_argument = { λ n. refl };
}
