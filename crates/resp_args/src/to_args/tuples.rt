//! Tuples as arguments: those of each part in turn.
#![tactic(auto, using(crate::proofs::Writings::writing))]

ghost use Rattle.std.specs.Prelude.{◌≡◌, ◌++◌};
ghost use Rattle.resp_args.specs.Writing.{Writes};

use crate::to_args::ToRedisArgs;
use crate::write::RedisWrite;
use std::alloc::AllocError;

impl<A: ToRedisArgs, B: ToRedisArgs> ToRedisArgs for (A, B) {
    ghost args = { λ p. A.args p.0 ++ B.args p.1 };

    fn write_redis_args<W: RedisWrite>(&self, out: &mut W) -> Result<(), AllocError> {
        write_two(&self.0, &self.1, out)
    }

    fn slice_as_bytes(_items: &[(A, B)]) -> Option<&[u8]> {
        None
    }
}

impl<A: ToRedisArgs, B: ToRedisArgs, C: ToRedisArgs> ToRedisArgs for (A, B, C) {
    ghost args = { λ p. A.args p.0 ++ B.args p.1 ++ C.args p.2 };

    fn write_redis_args<W: RedisWrite>(&self, out: &mut W) -> Result<(), AllocError> {
        write_three(&self.0, &self.1, &self.2, out)
    }

    fn slice_as_bytes(_items: &[(A, B, C)]) -> Option<&[u8]> {
        None
    }
}

impl<A: ToRedisArgs, B: ToRedisArgs, C: ToRedisArgs, D: ToRedisArgs> ToRedisArgs for (A, B, C, D) {
    ghost args = { λ p. A.args p.0 ++ B.args p.1 ++ C.args p.2 ++ D.args p.3 };

    fn write_redis_args<W: RedisWrite>(&self, out: &mut W) -> Result<(), AllocError> {
        write_three(&self.0, &self.1, &self.2, out)?;
        self.3.write_redis_args(out)
    }

    fn slice_as_bytes(_items: &[(A, B, C, D)]) -> Option<&[u8]> {
        None
    }
}

pub(crate) fn write_two<A: ToRedisArgs, B: ToRedisArgs, W: RedisWrite>(
    first: &A,
    second: &B,
    out: &mut W,
) -> Result<(), AllocError>
    ensures writes { Writes result (W.written out.old) (A.args first.now ++ B.args second.now)
        (W.written out.new) }
    ensures keeps { W.beside out.new ≡ W.beside out.old }
{
    first.write_redis_args(out)?;
    second.write_redis_args(out)
}

fn write_three<A: ToRedisArgs, B: ToRedisArgs, C: ToRedisArgs, W: RedisWrite>(
    first: &A,
    second: &B,
    third: &C,
    out: &mut W,
) -> Result<(), AllocError>
    ensures writes { Writes result (W.written out.old)
        (A.args first.now ++ B.args second.now ++ C.args third.now) (W.written out.new) }
    ensures keeps { W.beside out.new ≡ W.beside out.old }
{
    write_two(first, second, out)?;
    third.write_redis_args(out)
}
