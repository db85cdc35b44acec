//! Replies as truth values, texts, whole replies and nothing.
ghost use Rattle.std.specs.Prelude.{Bool, false, List, ℕ, Some, string_bytes, None};
ghost use Rattle.std.specs.Str.{bytes_eq};
ghost use Rattle.std.specs.Bool.{beq};
ghost use Rattle.resp_core.specs.Trees.{Tree};
ghost use Rattle.resp_core.specs.View.{view};
ghost use Rattle.resp_args.specs.Convert.{plain, truth, text, utf8, Answers, truth_of_text as spec_truth_of_text};

use crate::from::plain::{into_plain, plain};
use crate::from::{FromRedisValue, one};
use resp_core::{ParsingError, Value};
use std::alloc::Global;

impl FromRedisValue for bool {
    ghost Meaning = { Bool };

    ghost meaning = { λ b. b };

    ghost same = { beq };

    ghost convert = { λ t. truth (plain t) };

    ghost byte_item = { None };

    fn from_redis_value(alloc: Global, value: Value) -> Result<bool, ParsingError> {
        bool::from_redis_value_ref(alloc, &value)
    }

    fn from_redis_value_ref(_alloc: Global, value: &Value) -> Result<bool, ParsingError> {
        match plain(value) {
            Value::Nil => Ok(false),
            Value::Int(n) => Ok(*n != 0),
            Value::Boolean(b) => Ok(*b),
            Value::Okay => Ok(true),
            Value::SimpleString(text) => truth_of_text(text.as_bytes()),
            Value::BulkString(bytes) => truth_of_text(bytes.as_slice()),
            _ => Err(ParsingError::fixed("a truth value was wanted")),
        }
    }

    fn from_byte_vec(alloc: Global, bytes: Vec<u8>) -> Result<Vec<bool>, ParsingError> {
        let value = bool::from_redis_value(alloc, Value::BulkString(bytes))?;
        one(alloc, value)
    }
}

fn truth_of_text(text: &[u8]) -> Result<bool, ParsingError>
    ensures { Answers (λ b. b) (spec_truth_of_text text.now) result }
{
    match text {
        [b'1'] => Ok(true),
        [b'0'] => Ok(false),
        _ => Err(ParsingError::fixed("a truth value, `1` or `0`, was wanted")),
    }
}

/// Any reply, as it is.
impl FromRedisValue for Value {
    ghost Meaning = { Tree };

    ghost meaning = { view };

    ghost same = { λ _ _. false };

    ghost convert = { λ t. Some t };

    ghost byte_item = { None };

    fn from_redis_value(_alloc: Global, value: Value) -> Result<Value, ParsingError> {
        Ok(value)
    }

    fn from_byte_vec(alloc: Global, bytes: Vec<u8>) -> Result<Vec<Value>, ParsingError> {
        one(alloc, Value::BulkString(bytes))
    }
}

/// Any reply, which is dropped.
impl FromRedisValue for () {
    ghost Meaning = { Unit {0} };

    ghost meaning = { λ _. tt };

    ghost same = { λ _ _. false };

    ghost convert = { λ _. Some tt };

    ghost byte_item = { None };

    fn from_redis_value(_alloc: Global, _value: Value) -> Result<(), ParsingError> {
        Ok(())
    }

    fn from_redis_value_ref(_alloc: Global, _value: &Value) -> Result<(), ParsingError> {
        Ok(())
    }

    fn from_byte_vec(alloc: Global, _bytes: Vec<u8>) -> Result<Vec<()>, ParsingError> {
        one(alloc, ())
    }
}

impl FromRedisValue for String {
    ghost Meaning = { List ℕ };

    ghost meaning = { string_bytes };

    ghost same = { bytes_eq };

    ghost convert = { λ t. text (plain t) };

    ghost byte_item = { None };

    fn from_redis_value(alloc: Global, value: Value) -> Result<String, ParsingError> {
        match into_plain(value) {
            Value::BulkString(bytes) => text_of_bytes(bytes),
            Value::SimpleString(text) => Ok(text),
            Value::VerbatimString { format: _, text } => Ok(text),
            Value::Okay => Ok(String::from_str(alloc, "OK")?),
            Value::Int(n) => Ok(format!(in alloc; "{n}")?),
            _ => Err(ParsingError::fixed("a text was wanted")),
        }
    }

    fn from_redis_value_ref(alloc: Global, value: &Value) -> Result<String, ParsingError> {
        match plain(value) {
            Value::BulkString(bytes) => text_of_bytes(Vec::from_slice(alloc, bytes)?),
            Value::SimpleString(text) => Ok(text.clone()?),
            Value::VerbatimString { format: _, text } => Ok(text.clone()?),
            _ => String::from_redis_value(alloc, value.clone()?),
        }
    }

    fn from_byte_vec(alloc: Global, bytes: Vec<u8>) -> Result<Vec<String>, ParsingError> {
        let value = String::from_redis_value(alloc, Value::BulkString(bytes))?;
        one(alloc, value)
    }
}

fn text_of_bytes(bytes: Vec<u8>) -> Result<String, ParsingError>
    ensures { Answers string_bytes (utf8 bytes.items) result }
{
    match String::from_utf8(bytes) {
        Ok(text) => Ok(text),
        Err(_) => Err(ParsingError::fixed("a text in UTF-8 was wanted")),
    }
}
