//! INFO of a node, with the count of the guests that wait in place of its own, and whether it saves its keys.
use cluster_client::Value;
use std::alloc::{AllocError, Global};

const COUNTED: &[u8] = b"blocked_clients:";

/// The text, with the number behind `blocked_clients`.
fn with_count(alloc: Global, text: &[u8], count: usize) -> Result<Vec<u8>, AllocError> {
    let mut told = Vec::with_capacity(alloc, text.len())?;
    for line in text.split(|byte| *byte == b'\n') {
        if line.starts_with(COUNTED) {
            told.extend_from_slice(COUNTED)?;
            told.extend_from_slice(count.to_string(alloc)?.as_bytes())?;
            told.push(b'\r')?;
        } else {
            told.extend_from_slice(line)?;
        }
        told.push(b'\n')?;
    }
    // Behind the last piece there was none.
    let _added = told.pop();
    Ok(told)
}

fn has_progress(text: &[u8]) -> bool {
    for line in text.split(|byte| *byte == b'\n') {
        if line.ends_with(b"_in_progress:1\r") {
            return true;
        }
    }
    false
}

/// Whether a node told that it saves its keys, or writes its file of commands anew.
pub(crate) fn is_saving(told: &Value) -> bool {
    match told {
        Value::BulkString(text) => has_progress(text),
        Value::VerbatimString { text, .. } => has_progress(text.as_bytes()),
        _ => false,
    }
}

/// What a node told, with the count of those that wait.
pub(crate) fn with_waiting(alloc: Global, told: Value, count: usize) -> Result<Value, AllocError> {
    match told {
        Value::BulkString(text) => Ok(Value::BulkString(with_count(alloc, &text, count)?)),
        Value::VerbatimString { format, text } => {
            let bytes = with_count(alloc, text.as_bytes(), count)?;
            match String::from_utf8(bytes) {
                Ok(text) => Ok(Value::VerbatimString { format, text }),
                Err(_) => Ok(Value::VerbatimString { format, text }),
            }
        }
        other => Ok(other),
    }
}
