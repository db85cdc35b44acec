//! What refusals tell: their texts, each with its kind and its number, redirects, another try, and
//! the errors of a pipeline.
use crate::tests::texts::{is_text, prints, server_error_of, shown};
use resp_core::*;
use std::alloc::{AllocError, Global};
use std::process::Abort;
use std::test::*;

const CAUSES: &[(Cause, &str)] = &[
    (
        Cause::UnreadableAddress,
        "the client's settings are invalid (refusal 1): the text is no address",
    ),
    (
        Cause::RepeatedAddress,
        "the client's settings are invalid (refusal 1): an address is given twice",
    ),
    (
        Cause::SettingOutOfRange,
        "the client's settings are invalid (refusal 1): a setting is out of range",
    ),
    (
        Cause::NoResponse,
        "the command can not be sent so (refusal 2): the command waits for no response",
    ),
    (
        Cause::NoRoute,
        "the command can not be sent so (refusal 3): the command has no route of this kind",
    ),
    (
        Cause::CursorInSplit,
        "the command can not be sent so (refusal 4): a command that is split by its keys holds a cursor",
    ),
    (
        Cause::BrokenTuples,
        "the command can not be sent so (refusal 5): a command that is split by its keys has no whole tuples",
    ),
    (
        Cause::BadOrder,
        "the command can not be sent so (refusal 6): the order does not name each part once",
    ),
    (
        Cause::NoNode,
        "no usable link to a node (refusal 7): no node serves the slot",
    ),
    (
        Cause::NoLink,
        "no usable link to a node (refusal 8): no link leads to the node, or a closed one",
    ),
    (
        Cause::NoKeys,
        "the command can not be sent so (refusal 9): no key to read",
    ),
    (
        Cause::SeveralSlots,
        "the command can not be sent so (refusal 10): the keys have several slots",
    ),
    (
        Cause::BadGroupName,
        "the command can not be sent so (refusal 11): the group's or consumer's name can not be sent",
    ),
    (
        Cause::Io,
        "input or output failed (refusal 14): a read, a write or a flush failed, or the bytes ended early",
    ),
    (
        Cause::Parse,
        "the reply is no RESP (refusal 15): the bytes spell no value",
    ),
    (
        Cause::UnexpectedReturnType,
        "the reply has an unexpected type (refusal 16): the reply has not the shape that was asked for",
    ),
    (
        Cause::Memory,
        "out of memory (refusal 17): memory was refused",
    ),
    (
        Cause::ClaimsIdsAlone,
        "the command can not be sent so (refusal 18): a claim of ids alone has another reply",
    ),
    (
        Cause::LevelsOutOfRange,
        "the client's settings are invalid (refusal 19): the limit of levels is out of range",
    ),
    (
        Cause::NotAsked,
        "no usable link to a node (refusal 20): not sent, since the link of a node before it failed",
    ),
];

#[test]
fn causes(rt: HostRuntime) {
    for (cause, text) in CAUSES {
        let e = RedisError::from(*cause);
        prints(&rt, rt.alloc(), &e, text);
        assert_eq!(rt; e.cause(), Some(*cause));
    }
}

#[test]
fn want_of_memory(rt: HostRuntime) {
    for (cause, _) in CAUSES {
        assert_eq!(rt;
            RedisError::from(*cause).is_memory(),
            *cause == Cause::Memory
        );
    }
    assert!(rt; !RedisError::at_position(3).is_memory());
}

#[test]
fn kinds_without_a_cause(rt: HostRuntime) {
    let rows = [
        (ErrorKind::AuthenticationFailed, "authentication failed"),
        (
            ErrorKind::MasterNameNotFoundBySentinel,
            "the sentinels know no such master",
        ),
        (
            ErrorKind::NoValidReplicasFoundBySentinel,
            "the sentinels know no valid replica",
        ),
        (
            ErrorKind::EmptySentinelList,
            "the list of sentinels is empty",
        ),
        (ErrorKind::Serialize, "serialization failed"),
        (ErrorKind::RESP3NotSupported, "the server knows no RESP3"),
    ];
    for (kind, text) in rows {
        prints(&rt, rt.alloc(), &kind, text);
    }
}

const LINES: &[(&str, &str)] = &[
    ("ERR a", "the server answered ERR (refusal 13): ERR a"),
    (
        "EXECABORT a",
        "the server answered EXECABORT (refusal 13): EXECABORT a",
    ),
    (
        "LOADING a",
        "the server answered LOADING (refusal 13): LOADING a",
    ),
    (
        "NOSCRIPT a",
        "the server answered NOSCRIPT (refusal 13): NOSCRIPT a",
    ),
    ("MOVED a", "the server answered MOVED (refusal 13): MOVED a"),
    ("ASK a", "the server answered ASK (refusal 13): ASK a"),
    (
        "TRYAGAIN a",
        "the server answered TRYAGAIN (refusal 13): TRYAGAIN a",
    ),
    (
        "CLUSTERDOWN a",
        "the server answered CLUSTERDOWN (refusal 13): CLUSTERDOWN a",
    ),
    (
        "CROSSSLOT a",
        "the server answered CROSSSLOT (refusal 13): CROSSSLOT a",
    ),
    (
        "MASTERDOWN a",
        "the server answered MASTERDOWN (refusal 13): MASTERDOWN a",
    ),
    (
        "READONLY a",
        "the server answered READONLY (refusal 13): READONLY a",
    ),
    (
        "NOTBUSY a",
        "the server answered NOTBUSY (refusal 13): NOTBUSY a",
    ),
    ("NOSUB a", "the server answered NOSUB (refusal 13): NOSUB a"),
    (
        "NOPERM a",
        "the server answered NOPERM (refusal 13): NOPERM a",
    ),
    ("moved", "the server answered an error (refusal 13): moved"),
];

/// The refusal by a copy of the server's error of this line.
fn refusal_by(alloc: Global, line: &str) -> Result<RedisError, RedisError> {
    let copy = server_error_of(alloc, line)?.clone()?;
    Ok(RedisError::from(copy))
}

fn line_text(alloc: Global, line: &str) -> Result<String, RedisError> {
    Ok(refusal_by(alloc, line)?.to_string(alloc)?)
}

#[test]
fn server_errors(rt: HostRuntime) {
    for (line, text) in LINES {
        is_text(&rt, line_text(rt.alloc(), line), text);
    }
}

/// Where a refusal leads, and how its call may be tried again.
fn ways_on(alloc: Global, e: &RedisError) -> Result<String, AllocError> {
    shown(alloc, (e.redirect_node(), e.retry_method()))
}

fn ways_on_behind(alloc: Global, line: &str) -> Result<String, RedisError> {
    Ok(ways_on(alloc, &refusal_by(alloc, line)?)?)
}

const WAYS_ON: &[(&str, &str)] = &[
    (
        "MOVED 15495 n1:7001",
        "(Some((\"n1:7001\", 15495)), MovedRedirect)",
    ),
    (
        "MOVED 20000 n2:7002 more",
        "(Some((\"n2:7002\", 20000)), MovedRedirect)",
    ),
    ("ASK +7\t n2:1", "(Some((\"n2:1\", 7)), AskRedirect)"),
    ("MOVED 99999 n2:7002", "(None, MovedRedirect)"),
    ("MOVED 15495", "(None, MovedRedirect)"),
    ("MOVED", "(None, MovedRedirect)"),
    ("ERR 15495 n1:7001", "(None, NoRetry)"),
    ("TRYAGAIN", "(None, WaitAndRetry)"),
    ("LOADING", "(None, WaitAndRetry)"),
    ("CLUSTERDOWN", "(None, WaitAndRetry)"),
    ("MASTERDOWN", "(None, WaitAndRetry)"),
    ("OTHER", "(None, NoRetry)"),
];

#[test]
fn ways_on_behind_a_server_error(rt: HostRuntime) {
    for (line, wanted) in WAYS_ON {
        is_text(&rt, ways_on_behind(rt.alloc(), line), wanted);
    }
}

#[test]
fn ways_on_behind_a_cause(rt: HostRuntime) {
    let rows = [
        (Cause::Io, "(None, Reconnect)"),
        (Cause::Parse, "(None, Reconnect)"),
        (Cause::NoLink, "(None, ReconnectFromInitialConnections)"),
        (Cause::NoNode, "(None, ReconnectFromInitialConnections)"),
        (Cause::Memory, "(None, NoRetry)"),
    ];
    for (cause, wanted) in rows {
        let e = RedisError::from(cause);
        is_text(&rt, ways_on(rt.alloc(), &e), wanted);
    }
}

/// The text, then the errors at their positions.
fn is_refusal<R: Abort>(rt: &R, alloc: Global, e: RedisError, text: &str, errors: &str) {
    prints(rt, alloc, &e, text);
    is_text(rt, errors_in(alloc, e), errors);
}

fn errors_in(alloc: Global, e: RedisError) -> Result<String, AllocError> {
    shown(alloc, e.into_server_errors(alloc)?)
}

fn two_errors(alloc: Global) -> Result<RedisError, RedisError> {
    let first = server_error_of(alloc, "MOVED 1 n1:1")?;
    let more = vec![in alloc; (2, server_error_of(alloc, "ERR b")?)]?;
    Ok(RedisError::by_servers((0, first), more))
}

#[test]
fn errors_of_a_pipeline(rt: HostRuntime) -> Result<(), Fail> {
    let alloc = rt.alloc();
    let alone = refusal_by(alloc, "ERR b")?;
    let text = "the server answered ERR (refusal 13): ERR b";
    let errors = "[(0, ServerError { code: \"ERR\", detail: Some(\"b\") })]";
    is_refusal(&rt, alloc, alone, text, errors);
    let two = two_errors(alloc)?;
    let text =
        "the server answered MOVED (refusal 13): command 0 of the pipeline: MOVED 1 n1:1, and 1 more errors";
    let errors =
        "[(0, ServerError { code: \"MOVED\", detail: Some(\"1 n1:1\") }), (2, ServerError { code: \"ERR\", detail: Some(\"b\") })]";
    is_refusal(&rt, alloc, two, text, errors);
    let text = "the command can not be sent so (refusal 12): command 3 of the pipeline";
    is_refusal(&rt, alloc, RedisError::at_position(3), text, "[]");
    Ok(())
}

#[test]
fn no_cause_of_this_library(rt: HostRuntime) -> Result<(), Fail> {
    let alloc = rt.alloc();
    assert_eq!(rt; refusal_by(alloc, "ERR b")?.cause(), None);
    assert_eq!(rt; two_errors(alloc)?.cause(), None);
    assert_eq!(rt; RedisError::at_position(3).cause(), None);
    Ok(())
}

fn is_unreadable<R: Abort>(rt: &R, alloc: Global, e: ParsingError, text: &str) {
    let e = RedisError::from(e);
    prints(rt, alloc, &e, text);
    assert_eq!(rt; e.cause(), Some(Cause::UnexpectedReturnType));
}

#[test]
fn unreadable_replies(rt: HostRuntime) -> Result<(), Fail> {
    let alloc = rt.alloc();
    let made = format!(in alloc; "no number")?;
    let text = "the reply has an unexpected type (refusal 16): no number";
    is_unreadable(&rt, alloc, ParsingError::from(made), text);
    let text = "the reply has an unexpected type (refusal 16): no text";
    is_unreadable(&rt, alloc, ParsingError::fixed("no text"), text);
    let numbered = ParsingError::numbered("no status: ", -2);
    let text = "the reply has an unexpected type (refusal 16): no status: -2";
    is_unreadable(&rt, alloc, numbered, text);
    Ok(())
}
