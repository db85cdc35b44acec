//! What can be written as arguments.
ghost use Rattle.std.specs.Prelude.{◌≡◌, ℕ, List, [], ◌∷◌, ◌++◌, Option, None, map, flat_map, option_map, IfOk};
ghost use Rattle.resp_args.specs.Writing.{Writes, slice_args};

use crate::write::RedisWrite;
use std::alloc::{AllocError, Global};

mod holders;
mod maps;
mod numbers;
mod texts;
mod tuples;

/// A value that can be written as the arguments of a command.
///
/// Source: the documentation of the crate `redis`, `ToRedisArgs`.
pub trait ToRedisArgs: Sized {
    /// The arguments of a value, in order.
    ghost args: { Self → List (List ℕ) };

    /// The bytes that a slice of values is, where it is written as one argument.
    ghost slice_bytes: { List Self → Option (List ℕ) } = { λ _. None };

    /// Appends the arguments of the value, and changes nothing beside them.
    ///
    /// It is refused only for want of memory. Then some first of the arguments are written.
    fn write_redis_args<W: RedisWrite>(&self, out: &mut W) -> Result<(), AllocError>
        ensures writes { Writes result (W.written out.old) (args self.now) (W.written out.new) }
        ensures keeps { W.beside out.new ≡ W.beside out.old };

    /// The bytes of a slice that is written as one argument: of `u8` the slice itself, of all other
    /// types none. It takes no memory.
    fn slice_as_bytes(items: &[Self]) -> Option<&[u8]>
        ensures { option_map (λ s. s.now) result ≡ slice_bytes items.now };

    /// Appends the arguments of each item in turn, or the bytes of a slice as one argument, and
    /// changes nothing beside them.
    ///
    /// It is refused only for want of memory. Then some first of the arguments are written.
    final fn write_args_from_slice<W: RedisWrite>(
        items: &[Self],
        out: &mut W,
    ) -> Result<(), AllocError>
        ensures writes { Writes result (W.written out.old) (slice_args args (slice_bytes items.now) items.now)
            (W.written out.new) }
        ensures keeps { W.beside out.new ≡ W.beside out.old }
    {
        match Self::slice_as_bytes(items) {
            Some(bytes) => out.write_arg(bytes),
            None => write_each(items, out),
        }
    }

    /// The arguments of the value as a list. It is refused only for want of memory.
    final fn to_redis_args(&self, alloc: Global) -> Result<Vec<Vec<u8>>, AllocError>
        ensures { IfOk result (λ v. map (λ a. a.items) v.items ≡ args self.now) }
    {
        let mut out: Vec<Vec<u8>> = Vec::new(alloc);
        self.write_redis_args(&mut out)?;
        Ok(out)
    }
}

/// A value that is written as exactly one argument, whatever the value is.
///
/// Source: the documentation of the crate `redis`, `ToSingleRedisArg`.
pub trait ToSingleRedisArg: ToRedisArgs {
    /// The argument of a value.
    ghost arg: { Self → List ℕ };

    /// Each implementation proves that the argument is the only one.
    ghost one_argument: { (x : Self) → Self.args x ≡ arg x ∷ [] };
}

/// The arguments of each item in turn.
fn write_each<T: ToRedisArgs, W: RedisWrite>(items: &[T], out: &mut W) -> Result<(), AllocError>
    ensures writes { Writes result (W.written out.old) (flat_map T.args items.now) (W.written out.new) }
    ensures keeps { W.beside out.new ≡ W.beside out.old }
{
    for item in items {
        item.write_redis_args(out)?;
    }
    Ok(())
}
