//! The bound on the reads of a call, which stands at 2^32 in a link: here a call has eight.
use crate::memory_reader::MemoryReader;
use crate::replies::Receiver;
use resp_core::{ErrorKind, Parser, PushInfo, PushKind, RedisError, Value};
use std::test::*;

fn is_refused_by_io(replies: Result<Vec<Value>, RedisError>) -> bool {
    match replies {
        Ok(_) => false,
        Err(e) => e.kind() == ErrorKind::Io,
    }
}

fn is_of_kind(kind: &PushKind, name: &str) -> bool {
    match kind {
        PushKind::Other(other) => other.as_str() == name,
        _ => false,
    }
}

fn is_x_alone(pushes: &[PushInfo]) -> bool {
    match pushes {
        [push] => is_of_kind(&push.kind, "x") && push.items.is_empty(),
        _ => false,
    }
}

/// A byte a read: the first push takes all eight, and none is left for a reply.
#[test]
fn pushes_use_the_reads_up(rt: HostRuntime) -> Result<(), Fail> {
    let alloc = rt.alloc();
    let bytes = Vec::from_slice(alloc, b">1\r\n+x\r\n>1\r\n+x\r\n")?;
    let mut receiver = Receiver {
        reader: MemoryReader::new(bytes, 1, 0),
        parser: Parser::new(alloc),
        pushes: Vec::new(alloc),
    };
    let replies = receiver.read_replies(alloc, 0, 1, 8);
    assert!(rt; is_refused_by_io(replies));
    assert!(rt; is_x_alone(receiver.pushes.as_slice()));
    Ok(())
}
