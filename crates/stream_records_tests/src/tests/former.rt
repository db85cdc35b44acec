//! The conversions of replies to records of streams, and what these stand on, as they were before replies were converted
//! with fewer copies. Today's conversions are compared with them. They change only where another value or cause is wanted.
use resp_core::{ParsingError, Value};
use std::alloc::Global;

mod entries;
mod lists;
mod maps;
mod replies;
mod scalars;

/// A type that a reply was read as.
pub(crate) trait Former: Sized + Drop {
    /// Reads a reply.
    fn owned(alloc: Global, value: Value) -> Result<Self, ParsingError>;

    /// Reads a lent reply.
    fn lent(alloc: Global, value: &Value) -> Result<Self, ParsingError> {
        Self::owned(alloc, value.clone()?)
    }

    /// Reads the bytes of a bulk where a list is wanted.
    fn of_bytes(alloc: Global, bytes: Vec<u8>) -> Result<Vec<Self>, ParsingError> {
        let value = Self::owned(alloc, Value::BulkString(bytes))?;
        one(alloc, value)
    }
}

/// A list of one.
fn one<T: Drop>(alloc: Global, value: T) -> Result<Vec<T>, ParsingError> {
    let mut list = Vec::with_capacity(alloc, 1)?;
    list.push(value)?;
    Ok(list)
}

fn into_plain(value: Value) -> Value {
    match value {
        Value::Attribute {
            inner,
            attributes: _,
        } => into_plain(Box::into_inner(inner)),
        value => value,
    }
}

fn plain(value: &Value) -> &Value {
    match value {
        Value::Attribute {
            inner,
            attributes: _,
        } => plain(inner),
        value => value,
    }
}
