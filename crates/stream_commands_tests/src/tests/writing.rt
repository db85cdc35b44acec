//! What options are written as.
use resp_args::ToRedisArgs;
use std::alloc::{AllocError, Global};
use std::process::Abort;

/// The arguments, with a space between two.
fn words<T: ToRedisArgs>(alloc: Global, options: &T) -> Result<Vec<u8>, AllocError> {
    let mut found = Vec::new(alloc);
    for arg in options.to_redis_args(alloc)? {
        if !found.is_empty() {
            found.push(b' ')?;
        }
        found.extend_from_slice(&arg)?;
    }
    Ok(found)
}

/// The options are written so.
pub(crate) fn writes<T: ToRedisArgs + Drop, R: Abort>(
    rt: &R,
    alloc: Global,
    options: T,
    expected: &str,
) {
    match words(alloc, &options) {
        Ok(found) => assert_eq!(rt; found.as_slice(), expected.as_bytes()),
        Err(_) => assert!(rt; false, "memory was refused"),
    }
}

pub(crate) fn text(alloc: Global, text: &str) -> Result<String, AllocError> {
    format!(in alloc; "{text}")
}
