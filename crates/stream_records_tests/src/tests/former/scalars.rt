//! Replies as texts, counts and whole replies.
use crate::tests::former::{Former, into_plain, plain};
use resp_core::{ParsingError, Value};
use std::alloc::Global;

impl Former for Value {
    fn owned(_alloc: Global, value: Value) -> Result<Value, ParsingError> {
        Ok(value)
    }
}

impl Former for String {
    fn owned(alloc: Global, value: Value) -> Result<String, ParsingError> {
        match into_plain(value) {
            Value::BulkString(bytes) => text_of_bytes(bytes),
            Value::SimpleString(text) => Ok(text),
            Value::VerbatimString { format: _, text } => Ok(text),
            Value::Okay => Ok(String::from_str(alloc, "OK")?),
            Value::Int(n) => Ok(format!(in alloc; "{n}")?),
            _ => Err(ParsingError::fixed("a text was wanted")),
        }
    }

    fn lent(alloc: Global, value: &Value) -> Result<String, ParsingError> {
        match plain(value) {
            Value::BulkString(bytes) => text_of_bytes(Vec::from_slice(alloc, bytes)?),
            Value::SimpleString(text) => Ok(text.clone()?),
            Value::VerbatimString { format: _, text } => Ok(text.clone()?),
            _ => String::owned(alloc, value.clone()?),
        }
    }
}

fn text_of_bytes(bytes: Vec<u8>) -> Result<String, ParsingError> {
    match String::from_utf8(bytes) {
        Ok(text) => Ok(text),
        Err(_) => Err(ParsingError::fixed("a text in UTF-8 was wanted")),
    }
}

impl Former for usize {
    fn owned(_alloc: Global, value: Value) -> Result<usize, ParsingError> {
        count_of(&value)
    }

    fn lent(_alloc: Global, value: &Value) -> Result<usize, ParsingError> {
        count_of(value)
    }
}

fn count_of(value: &Value) -> Result<usize, ParsingError> {
    match count_in(value) {
        Some(n) => Ok(n),
        None => Err(ParsingError::fixed("an integer of the type was wanted")),
    }
}

fn count_in(value: &Value) -> Option<usize> {
    match plain(value) {
        Value::Int(n) => usize::try_from(*n).ok(),
        Value::SimpleString(text) => text.as_str().parse::<usize>().ok(),
        Value::BulkString(bytes) => count_in_bytes(bytes.as_slice()),
        _ => None,
    }
}

fn count_in_bytes(bytes: &[u8]) -> Option<usize> {
    match std::str::from_utf8(bytes) {
        Ok(text) => text.parse::<usize>().ok(),
        Err(_) => None,
    }
}
