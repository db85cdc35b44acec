//! CLIENT UNBLOCK: the end of another guest's wait.
use crate::own::line;
use crate::waits::{Release, Waits};
use crate::way::{argument, argument_count, is_word};
use cluster_client::Cmd;
use cluster_servers::Reply;
use proxy_core::{Fate, Outcome};
use resp_core::WriteError;
use std::alloc::{AllocError, Global};

/// Ends another guest's wait.
pub(crate) fn unblock(alloc: Global, waits: &mut Waits, command: &Cmd) -> Outcome<Reply> {
    match unblocked(alloc, waits, command) {
        Ok(reply) => Outcome {
            fate: Fate::Answered,
            reply,
        },
        Err(AllocError) => Outcome {
            fate: Fate::Lost,
            reply: Reply::Unwritten(WriteError::Memory),
        },
    }
}

fn unblocked(alloc: Global, waits: &mut Waits, command: &Cmd) -> Result<Reply, AllocError> {
    let id = match std::str::from_utf8(argument(command, 2)) {
        Ok(text) => text.parse::<i64>().ok(),
        Err(_) => None,
    };
    let release = match (argument_count(command), is_word(command, 3, b"ERROR")) {
        (3, _) => Release::Timeout,
        (4, true) => Release::Error,
        (4, false) if is_word(command, 3, b"TIMEOUT") => Release::Timeout,
        _ => {
            return line(
                alloc,
                b"-ERR CLIENT UNBLOCK reason should be TIMEOUT or ERROR",
            );
        }
    };
    let Some(id) = id else {
        return line(alloc, b"-ERR value is not an integer or out of range");
    };
    // What is told may lack memory, so it is made before.
    let (done, none) = (line(alloc, b":1")?, line(alloc, b":0")?);
    Ok(if waits.release(id, release) {
        done
    } else {
        none
    })
}
