//! Replies as tuples, without looking through attributes.
#![tactic(auto, using(crate::proofs::Answering::answering))]

ghost use Rattle.std.specs.Prelude.{false, map as each, None};
ghost use Rattle.resp_core.specs.View.{view, pair_view};
ghost use Rattle.resp_args.specs.Convert.{tuple2, tuple3, tuple4, pair_of, lone_pair, triple_of, quadruple_of, Answers};

use crate::from::FromRedisValue;
use resp_core::{ParsingError, Value};
use std::alloc::Global;

/// An array of two, or a map of one pair.
impl<A: FromRedisValue, B: FromRedisValue> FromRedisValue for (A, B) {
    ghost Meaning = { A.Meaning × B.Meaning };

    ghost meaning = { λ p. (A.meaning p.0, B.meaning p.1) };

    ghost same = { λ _ _. false };

    ghost convert = { tuple2 A.convert B.convert };

    ghost byte_item = { None };

    fn from_redis_value(alloc: Global, value: Value) -> Result<(A, B), ParsingError> {
        match value {
            Value::Array(items) => two(alloc, items),
            Value::Map(pairs) => lone(alloc, pairs),
            _ => Err(ParsingError::fixed("two values were wanted")),
        }
    }

    fn from_byte_vec(_alloc: Global, _bytes: Vec<u8>) -> Result<Vec<(A, B)>, ParsingError> {
        Err(ParsingError::fixed("a list of pairs was wanted"))
    }
}

fn two<A: FromRedisValue, B: FromRedisValue>(
    alloc: Global,
    items: Vec<Value>,
) -> Result<(A, B), ParsingError>
    ensures { Answers (λ p. (A.meaning p.0, B.meaning p.1))
        (pair_of A.convert B.convert (each view items.items)) result }
{
    match <[Value; 2]>::try_from(items) {
        Ok(both) => {
            let [a, b] = both;
            Ok((
                A::from_redis_value(alloc, a)?,
                B::from_redis_value(alloc, b)?,
            ))
        }
        Err(_items) => Err(ParsingError::fixed("an array of two was wanted")),
    }
}

fn lone<A: FromRedisValue, B: FromRedisValue>(
    alloc: Global,
    mut pairs: Vec<(Value, Value)>,
) -> Result<(A, B), ParsingError>
    ensures { Answers (λ p. (A.meaning p.0, B.meaning p.1))
        (lone_pair A.convert B.convert (each pair_view pairs.items)) result }
{
    if pairs.len() != 1 {
        return Err(ParsingError::fixed("a map of one pair was wanted"));
    }
    match pairs.pop() {
        Some((a, b)) => Ok((
            A::from_redis_value(alloc, a)?,
            B::from_redis_value(alloc, b)?,
        )),
        None => Err(ParsingError::fixed("a map of one pair was wanted")),
    }
}

/// An array of three.
impl<A: FromRedisValue, B: FromRedisValue, C: FromRedisValue> FromRedisValue for (A, B, C) {
    ghost Meaning = { A.Meaning × B.Meaning × C.Meaning };

    ghost meaning = { λ p. (A.meaning p.0, B.meaning p.1, C.meaning p.2) };

    ghost same = { λ _ _. false };

    ghost convert = { tuple3 A.convert B.convert C.convert };

    ghost byte_item = { None };

    fn from_redis_value(alloc: Global, value: Value) -> Result<(A, B, C), ParsingError> {
        match value {
            Value::Array(items) => triple(alloc, items),
            _ => Err(ParsingError::fixed("three values were wanted")),
        }
    }

    fn from_byte_vec(_alloc: Global, _bytes: Vec<u8>) -> Result<Vec<(A, B, C)>, ParsingError> {
        Err(ParsingError::fixed("a list of triples was wanted"))
    }
}

fn triple<A: FromRedisValue, B: FromRedisValue, C: FromRedisValue>(
    alloc: Global,
    items: Vec<Value>,
) -> Result<(A, B, C), ParsingError>
    ensures { Answers (λ p. (A.meaning p.0, B.meaning p.1, C.meaning p.2))
        (triple_of A.convert B.convert C.convert (each view items.items)) result }
{
    match <[Value; 3]>::try_from(items) {
        Ok(all) => {
            let [a, b, c] = all;
            Ok((
                A::from_redis_value(alloc, a)?,
                B::from_redis_value(alloc, b)?,
                C::from_redis_value(alloc, c)?,
            ))
        }
        Err(_items) => Err(ParsingError::fixed("an array of three was wanted")),
    }
}

/// An array of four.
impl<A: FromRedisValue, B: FromRedisValue, C: FromRedisValue, D: FromRedisValue> FromRedisValue
    for (A, B, C, D) {
    ghost Meaning = { A.Meaning × B.Meaning × C.Meaning × D.Meaning };

    ghost meaning = { λ p. (A.meaning p.0, B.meaning p.1, C.meaning p.2, D.meaning p.3) };

    ghost same = { λ _ _. false };

    ghost convert = { tuple4 A.convert B.convert C.convert D.convert };

    ghost byte_item = { None };

    fn from_redis_value(alloc: Global, value: Value) -> Result<(A, B, C, D), ParsingError> {
        match value {
            Value::Array(items) => quadruple(alloc, items),
            _ => Err(ParsingError::fixed("four values were wanted")),
        }
    }

    fn from_byte_vec(_alloc: Global, _bytes: Vec<u8>) -> Result<Vec<(A, B, C, D)>, ParsingError> {
        Err(ParsingError::fixed("a list of quadruples was wanted"))
    }
}

fn quadruple<A: FromRedisValue, B: FromRedisValue, C: FromRedisValue, D: FromRedisValue>(
    alloc: Global,
    items: Vec<Value>,
) -> Result<(A, B, C, D), ParsingError>
    ensures { Answers (λ p. (A.meaning p.0, B.meaning p.1, C.meaning p.2, D.meaning p.3))
        (quadruple_of A.convert B.convert C.convert D.convert (each view items.items)) result }
{
    match <[Value; 4]>::try_from(items) {
        Ok(all) => {
            let [a, b, c, d] = all;
            Ok((
                A::from_redis_value(alloc, a)?,
                B::from_redis_value(alloc, b)?,
                C::from_redis_value(alloc, c)?,
                D::from_redis_value(alloc, d)?,
            ))
        }
        Err(_items) => Err(ParsingError::fixed("an array of four was wanted")),
    }
}
