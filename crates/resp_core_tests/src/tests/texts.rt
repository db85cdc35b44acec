//! Texts that are told, beside those that are wanted.
use resp_core::*;
use std::alloc::{AllocError, Global};
use std::fmt::{Debug, Display};
use std::process::Abort;

pub(crate) fn shown<T: Debug + Drop>(alloc: Global, value: T) -> Result<String, AllocError> {
    format!(in alloc; "{value:?}")
}

pub(crate) fn is_text<R: Abort, E: Drop>(rt: &R, found: Result<String, E>, wanted: &str) {
    match found {
        Ok(text) => assert_eq!(rt; text.as_str(), wanted),
        Err(_) => assert!(rt; false, "there is no text"),
    }
}

pub(crate) fn prints<R: Abort, T: Display>(rt: &R, alloc: Global, shown: &T, wanted: &str) {
    is_text(rt, shown.to_string(alloc), wanted);
}

/// The server's error of this line.
pub(crate) fn server_error_of(alloc: Global, line: &str) -> Result<ServerError, RedisError> {
    let bytes = format!(in alloc; "-{line}\r\n")?;
    match parse_redis_value(alloc, bytes.as_bytes())? {
        Value::ServerError(error) => Ok(error),
        _ => Err(RedisError::from(Cause::UnexpectedReturnType)),
    }
}

/// 1 where there is a value, 0 where bytes are missing, or else the number of the refusal.
pub(crate) fn taken(parser: &mut Parser) -> u8 {
    match parser.take_value() {
        Ok(Some(_)) => 1,
        Ok(None) => 0,
        Err(e) => e.number(),
    }
}
