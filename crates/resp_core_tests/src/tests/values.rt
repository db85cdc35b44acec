//! What a value holds, and the texts of its formats and kinds.
use crate::tests::texts::{is_text, shown};
use resp_core::*;
use std::alloc::{AllocError, Global};
use std::test::*;

/// The items, or the value where it is no sequence.
fn lent_items(alloc: Global, value: &Value) -> Result<String, AllocError> {
    match value.as_sequence() {
        Some(items) => shown(alloc, items),
        None => shown(alloc, value),
    }
}

fn owned_items(alloc: Global, value: Value) -> Result<String, AllocError> {
    match value.into_sequence(alloc) {
        Ok(items) => shown(alloc, items),
        Err(value) => shown(alloc, value),
    }
}

/// The items by both forms, or the number of the refusal.
fn items(alloc: Global, bytes: &[u8]) -> Result<String, AllocError> {
    match parse_redis_value(alloc, bytes) {
        Ok(value) => {
            let mut text = lent_items(alloc, &value)?;
            text.push_str(owned_items(alloc, value)?.as_str())?;
            Ok(text)
        }
        Err(e) => shown(alloc, e.number()),
    }
}

const SEQUENCES: &[(&[u8], &str)] = &[
    (b"*2\r\n:1\r\n:2\r\n?", "[Int(1), Int(2)][Int(1), Int(2)]"),
    (b"~1\r\n:1\r\n", "[Int(1)][Int(1)]"),
    (b"_\r\n", "[][]"),
    (
        b"%1\r\n:1\r\n:2\r\n",
        "Map([(Int(1), Int(2))])Map([(Int(1), Int(2))])",
    ),
    (b"$2\r\nab\r", "14"),
    (b"$2\r\nabX", "15"),
];

#[test]
fn sequences(rt: HostRuntime) {
    for (bytes, wanted) in SEQUENCES {
        is_text(&rt, items(rt.alloc(), bytes), wanted);
    }
}

fn kind_text(alloc: Global, kind: &PushKind) -> Result<String, AllocError> {
    format!(in alloc; "{kind:?} {kind} {}", kind.as_str())
}

fn named_kind(alloc: Global, word: &str) -> Result<String, AllocError> {
    kind_text(alloc, &get_push_kind(format!(in alloc; "{word}")?))
}

const KINDS: &[(&str, &str)] = &[
    ("invalidate", "Invalidate invalidate invalidate"),
    ("message", "Message message message"),
    ("pmessage", "PMessage pmessage pmessage"),
    ("smessage", "SMessage smessage smessage"),
    ("unsubscribe", "Unsubscribe unsubscribe unsubscribe"),
    ("punsubscribe", "PUnsubscribe punsubscribe punsubscribe"),
    ("sunsubscribe", "SUnsubscribe sunsubscribe sunsubscribe"),
    ("subscribe", "Subscribe subscribe subscribe"),
    ("psubscribe", "PSubscribe psubscribe psubscribe"),
    ("ssubscribe", "SSubscribe ssubscribe ssubscribe"),
    ("Message", "Other(\"Message\") Message Message"),
    (
        "disconnection",
        "Other(\"disconnection\") disconnection disconnection",
    ),
    ("", "Other(\"\")  "),
];

#[test]
fn kinds(rt: HostRuntime) {
    for (word, wanted) in KINDS {
        is_text(&rt, named_kind(rt.alloc(), word), wanted);
    }
    let gone = kind_text(rt.alloc(), &PushKind::Disconnection);
    is_text(&rt, gone, "Disconnection disconnection disconnection");
}

fn format_text(alloc: Global, format: &VerbatimFormat) -> Result<String, AllocError> {
    format!(in alloc; "{format:?} {format} {}", format.as_str())
}

#[test]
fn formats(rt: HostRuntime) -> Result<(), Fail> {
    let alloc = rt.alloc();
    let other = VerbatimFormat::Unknown(format!(in alloc; "x")?);
    is_text(
        &rt,
        format_text(alloc, &VerbatimFormat::Text),
        "Text txt txt",
    );
    is_text(
        &rt,
        format_text(alloc, &VerbatimFormat::Markdown),
        "Markdown mkd mkd",
    );
    is_text(&rt, format_text(alloc, &other), "Unknown(\"x\") x x");
    Ok(())
}

/// Also copies its kind and its value, which has a format.
fn copied_push(alloc: Global) -> Result<PushInfo, RedisError> {
    let kind = get_push_kind(format!(in alloc; "news")?);
    let value = parse_redis_value(alloc, b"=5\r\nabc:t\r\n")?;
    let items = vec![in alloc; value]?;
    Ok(PushInfo { kind, items }.clone()?)
}

#[test]
fn copies_of_a_push(rt: HostRuntime) -> Result<(), Fail> {
    let wanted =
        "PushInfo { kind: Other(\"news\"), items: [VerbatimString { format: Unknown(\"abc\"), text: \"t\" }] }";
    let copy = copied_push(rt.alloc())?;
    is_text(&rt, shown(rt.alloc(), copy), wanted);
    Ok(())
}
