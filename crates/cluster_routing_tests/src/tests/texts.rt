//! Texts that are told, beside those that are wanted.

use std::alloc::{AllocError, Global};
use std::fmt::Debug;
use std::process::Abort;

pub(crate) fn text<T: Debug>(alloc: Global, shown: &T) -> Result<String, AllocError> {
    format!(in alloc; "{shown:?}")
}

pub(crate) fn is_text<R: Abort>(rt: &R, found: Result<String, AllocError>, wanted: &str) {
    match found {
        Ok(text) => assert_eq!(rt; text.as_str(), wanted),
        Err(_) => assert!(rt; false, "memory was refused"),
    }
}

/// The value is shown so.
pub(crate) fn shows<T: Debug, R: Abort>(rt: &R, alloc: Global, shown: &T, wanted: &str) {
    is_text(rt, text(alloc, shown), wanted);
}
