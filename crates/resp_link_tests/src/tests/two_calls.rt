//! Links that send by one call and take the replies by another.
use crate::tests::links::{int_of, is_refused, link_over};
use resp_core::{ErrorKind, RedisError, Value};
use resp_link::*;
use std::test::*;

/// The one reply of a list.
fn only(replies: Result<Vec<Value>, RedisError>) -> Option<i64> {
    match replies {
        Ok(mut replies) => {
            if replies.len() == 1 {
                int_of(Ok(replies.remove(0)))
            } else {
                None
            }
        }
        Err(_) => None,
    }
}

/// Whether the call was refused, since the link owes replies, owes none or is closed.
fn is_out_of_turn<T: Drop>(answer: Result<T, RedisError>) -> bool {
    is_refused(answer, ErrorKind::ClusterConnectionNotFound)
}

#[test]
fn replies_are_taken_behind_a_sending(rt: HostRuntime) -> Result<(), Fail> {
    let alloc = rt.alloc();
    let mut link = link_over(alloc, b":1\r\n:2\r\n:3\r\n", 0)?;
    assert!(rt; link.send_packed_commands(b"ab").is_ok());
    assert_eq!(rt; link.writer().written(), b"ab".as_slice());
    assert!(rt; !link.is_open());
    assert_eq!(rt; only(link.recv_responses(alloc, 1)), Some(1));
    assert!(rt; link.is_open());
    // (what was not taken is the first of the next call)
    assert_eq!(rt; int_of(link.req_packed_command(alloc, b"c")), Some(2));
    Ok(())
}

#[test]
fn a_link_that_owes_replies_does_nothing_else(rt: HostRuntime) -> Result<(), Fail> {
    let alloc = rt.alloc();
    let mut link = link_over(alloc, b":1\r\n:2\r\n", 0)?;
    assert!(rt; link.send_packed_commands(b"ab").is_ok());
    assert!(rt; is_out_of_turn(link.send_packed_commands(b"c")));
    assert!(rt; is_out_of_turn(link.req_packed_command(alloc, b"d")));
    assert!(rt; is_out_of_turn(link.req_packed_commands(alloc, b"e", 0, 1)));
    assert_eq!(rt; link.writer().written(), b"ab".as_slice());
    assert_eq!(rt; only(link.recv_responses(alloc, 1)), Some(1));
    assert_eq!(rt; int_of(link.req_packed_command(alloc, b"f")), Some(2));
    Ok(())
}

#[test]
fn a_link_that_owes_none_gives_none(rt: HostRuntime) -> Result<(), Fail> {
    let alloc = rt.alloc();
    let mut link = link_over(alloc, b":1\r\n", 0)?;
    assert!(rt; is_out_of_turn(link.recv_responses(alloc, 1)));
    assert!(rt; is_out_of_turn(link.recv_responses(alloc, 0)));
    assert_eq!(rt; int_of(link.req_packed_command(alloc, b"a")), Some(1));
    assert!(rt; link.send_packed_commands(b"b").is_ok());
    // The bytes end: the link is closed, and owes nothing.
    assert!(rt; is_refused(link.recv_responses(alloc, 1), ErrorKind::Io));
    assert!(rt; !link.is_open());
    assert!(rt; is_out_of_turn(link.recv_responses(alloc, 1)));
    assert!(rt; is_out_of_turn(link.send_packed_commands(b"c")));
    assert_eq!(rt; link.writer().written(), b"ab".as_slice());
    Ok(())
}

#[test]
fn a_refused_sending_closes(rt: HostRuntime) -> Result<(), Fail> {
    let alloc = rt.alloc();
    let mut link = link_over(alloc, b":1\r\n", 1)?;
    assert!(rt; is_refused(link.send_packed_commands(b"a"), ErrorKind::Io));
    assert!(rt; !link.is_open());
    assert!(rt; is_out_of_turn(link.recv_responses(alloc, 1)));
    assert_eq!(rt; link.writer().written(), b"".as_slice());
    Ok(())
}
