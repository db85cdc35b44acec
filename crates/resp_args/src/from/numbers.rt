//! Replies as integers.
ghost use Rattle.std.specs.Ordering.{int_eq};
ghost use Rattle.std.specs.Prelude.{◌≡◌, ℕ, ℤ, pos, List, Some, Option, option_map, option_and_then, None};
ghost use Rattle.resp_core.specs.View.{view};
ghost use Rattle.resp_args.specs.Numbers.{unsigned_text, unsigned_number, signed_text, signed_number};
ghost use Rattle.resp_args.specs.Convert.{plain, count, unsigned_count, utf8, Answers};

use crate::from::plain::plain;
use crate::from::{FromRedisValue, one};
use resp_core::{ParsingError, Value};
use std::alloc::Global;

/// An integer type that a reply can be read as.
pub trait Number: Copy {
    /// The number that a value is.
    ghost number: { Self → ℤ };

    /// The number, if the type holds it.
    ghost fitting: { ℤ → Option ℤ };

    /// The number that the type reads of a text.
    ghost reading: { List ℕ → Option ℤ };

    /// The value of a number, if the type holds it.
    fn from_i64(n: i64) -> Option<Self>
        ensures { option_map number result ≡ fitting n };

    /// The value that the type reads of a text.
    fn from_text(text: &str) -> Option<Self>
        ensures { option_map number result ≡ reading text.now };
}

/// An integer type whose lists are no bytes: all but `u8`.
pub trait Count: Number {}

fn count_of<N: Number>(value: &Value) -> Result<N, ParsingError>
    ensures { Answers N.number (count N.fitting N.reading (plain (view value.now))) result }
{
    match count_in(value) {
        Some(n) => Ok(n),
        None => Err(ParsingError::fixed("an integer of the type was wanted")),
    }
}

fn count_in<N: Number>(value: &Value) -> Option<N>
    ensures { option_map N.number result ≡ count N.fitting N.reading (plain (view value.now)) }
{
    match plain(value) {
        Value::Int(n) => N::from_i64(*n),
        Value::SimpleString(text) => N::from_text(text.as_str()),
        Value::BulkString(bytes) => count_in_bytes(bytes.as_slice()),
        _ => None,
    }
}

fn count_in_bytes<N: Number>(bytes: &[u8]) -> Option<N>
    ensures { option_map N.number result ≡ option_and_then N.reading (utf8 bytes.now) }
{
    match std::str::from_utf8(bytes) {
        Ok(text) => N::from_text(text),
        Err(_) => None,
    }
}

impl<N: Count> FromRedisValue for N {
    ghost Meaning = { ℤ };

    ghost meaning = { λ n. N.number n };

    ghost same = { int_eq };

    ghost convert = { λ t. count N.fitting N.reading (plain t) };

    ghost byte_item = { None };

    fn from_redis_value(_alloc: Global, value: Value) -> Result<N, ParsingError> {
        count_of(&value)
    }

    fn from_redis_value_ref(_alloc: Global, value: &Value) -> Result<N, ParsingError> {
        count_of(value)
    }

    fn from_byte_vec(alloc: Global, bytes: Vec<u8>) -> Result<Vec<N>, ParsingError> {
        let value = count_of::<N>(&Value::BulkString(bytes))?;
        one(alloc, value)
    }
}

/// A list of `u8` is the bytes of a bulk.
impl FromRedisValue for u8 {
    ghost Meaning = { ℤ };

    ghost meaning = { pos };

    ghost same = { int_eq };

    ghost convert = { λ t. unsigned_count 8 (plain t) };

    ghost byte_item = { Some pos };

    fn from_redis_value(_alloc: Global, value: Value) -> Result<u8, ParsingError> {
        count_of(&value)
    }

    fn from_redis_value_ref(_alloc: Global, value: &Value) -> Result<u8, ParsingError> {
        count_of(value)
    }

    fn from_byte_vec(_alloc: Global, bytes: Vec<u8>) -> Result<Vec<u8>, ParsingError> {
        Ok(bytes)
    }
}

impl Number for u8 {
    ghost number = { pos };

    ghost fitting = { unsigned_number 8 };

    ghost reading = { unsigned_text 8 };

    fn from_i64(n: i64) -> Option<u8> {
        u8::try_from(n).ok()
    }

    fn from_text(text: &str) -> Option<u8> {
        text.parse::<u8>().ok()
    }
}

impl Number for u16 {
    ghost number = { pos };

    ghost fitting = { unsigned_number 16 };

    ghost reading = { unsigned_text 16 };

    fn from_i64(n: i64) -> Option<u16> {
        u16::try_from(n).ok()
    }

    fn from_text(text: &str) -> Option<u16> {
        text.parse::<u16>().ok()
    }
}

impl Count for u16 {}

impl Number for u32 {
    ghost number = { pos };

    ghost fitting = { unsigned_number 32 };

    ghost reading = { unsigned_text 32 };

    fn from_i64(n: i64) -> Option<u32> {
        u32::try_from(n).ok()
    }

    fn from_text(text: &str) -> Option<u32> {
        text.parse::<u32>().ok()
    }
}

impl Count for u32 {}

impl Number for u64 {
    ghost number = { pos };

    ghost fitting = { unsigned_number 64 };

    ghost reading = { unsigned_text 64 };

    fn from_i64(n: i64) -> Option<u64> {
        u64::try_from(n).ok()
    }

    fn from_text(text: &str) -> Option<u64> {
        text.parse::<u64>().ok()
    }
}

impl Count for u64 {}

impl Number for usize {
    ghost number = { pos };

    ghost fitting = { unsigned_number 64 };

    ghost reading = { unsigned_text 64 };

    fn from_i64(n: i64) -> Option<usize> {
        usize::try_from(n).ok()
    }

    fn from_text(text: &str) -> Option<usize> {
        text.parse::<usize>().ok()
    }
}

impl Count for usize {}

impl Number for i8 {
    ghost number = { λ z. z };

    ghost fitting = { signed_number 8 };

    ghost reading = { signed_text 8 };

    fn from_i64(n: i64) -> Option<i8> {
        i8::try_from(n).ok()
    }

    fn from_text(text: &str) -> Option<i8> {
        text.parse::<i8>().ok()
    }
}

impl Count for i8 {}

impl Number for i16 {
    ghost number = { λ z. z };

    ghost fitting = { signed_number 16 };

    ghost reading = { signed_text 16 };

    fn from_i64(n: i64) -> Option<i16> {
        i16::try_from(n).ok()
    }

    fn from_text(text: &str) -> Option<i16> {
        text.parse::<i16>().ok()
    }
}

impl Count for i16 {}

impl Number for i32 {
    ghost number = { λ z. z };

    ghost fitting = { signed_number 32 };

    ghost reading = { signed_text 32 };

    fn from_i64(n: i64) -> Option<i32> {
        i32::try_from(n).ok()
    }

    fn from_text(text: &str) -> Option<i32> {
        text.parse::<i32>().ok()
    }
}

impl Count for i32 {}

impl Number for i64 {
    ghost number = { λ z. z };

    ghost fitting = { signed_number 64 };

    ghost reading = { signed_text 64 };

    fn from_i64(n: i64) -> Option<i64> {
        Some(n)
    }

    fn from_text(text: &str) -> Option<i64> {
        text.parse::<i64>().ok()
    }
}

impl Count for i64 {}

impl Number for isize {
    ghost number = { λ z. z };

    ghost fitting = { signed_number 64 };

    ghost reading = { signed_text 64 };

    fn from_i64(n: i64) -> Option<isize> {
        isize::try_from(n).ok()
    }

    fn from_text(text: &str) -> Option<isize> {
        text.parse::<isize>().ok()
    }
}

impl Count for isize {}
