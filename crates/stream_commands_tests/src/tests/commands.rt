//! Whole commands by examples.
use resp_args::Cmd;
use std::alloc::{AllocError, Global};
use std::test::*;
use stream_commands::*;

/// The commands that `command` makes, each as its arguments with a space between two.
const SENT: [&str; 12] = [
    "XADD a NOMKSTREAM 1-0 f 1 g 2",
    "XTRIM a MAXLEN ~ 10",
    "XREAD COUNT 2 STREAMS a b 0 1-0",
    "XREAD STREAMS STREAMS 0",
    "XRANGE a - +",
    "XCLAIM a g c 60000 1-0 2-0 FORCE",
    "XAUTOCLAIM a g c 60000 0-0 JUSTID",
    "XPENDING a g",
    "XINFO STREAM a",
    "XINFO GROUPS a",
    "XINFO CONSUMERS a g",
    "XDELEX a KEEPREF IDS 2 1-0 2-0",
];

fn read(alloc: Global, streams: &[(&str, &str)], count: bool) -> Result<Cmd, AllocError> {
    let options = StreamReadOptions::empty();
    let options = if count { options.count(2) } else { options };
    commands::xread(alloc, streams, &options)
}

fn command(alloc: Global, which: usize) -> Result<Cmd, AllocError> {
    let ids = ["1-0", "2-0"];
    match which {
        0 => {
            let options = StreamAddOptions::empty().nomkstream();
            commands::xadd(alloc, &"a", &options, &"1-0", &[("f", 1_u8), ("g", 2)])
        }
        1 => {
            let options = StreamTrimOptions::maxlen(StreamTrimmingMode::Approx, 10);
            commands::xtrim(alloc, &"a", &options)
        }
        2 => read(alloc, &[("a", "0"), ("b", "1-0")], true),
        3 => read(alloc, &[("STREAMS", "0")], false),
        4 => commands::xrange(alloc, &"a", &"-", &"+"),
        5 => {
            let options = StreamClaimOptions::empty().with_force();
            commands::xclaim(alloc, &"a", &"g", &"c", 60000, &ids, &options)
        }
        6 => {
            let options = StreamAutoClaimOptions::default().with_justid();
            commands::xautoclaim(alloc, &"a", &"g", &"c", 60000, &"0-0", &options)
        }
        7 => commands::xpending(alloc, &"a", &"g"),
        8 => commands::xinfo_stream(alloc, &"a"),
        9 => commands::xinfo_groups(alloc, &"a"),
        10 => commands::xinfo_consumers(alloc, &"a", &"g"),
        _ => commands::xdel_ex(alloc, &"a", &ids, &StreamDeletionPolicy::KeepRef),
    }
}

fn spaced(alloc: Global, cmd: &Cmd) -> Result<Vec<u8>, AllocError> {
    let mut text: Vec<u8> = Vec::new(alloc);
    for arg in cmd.wire_args()? {
        if !text.is_empty() {
            text.push(b' ')?;
        }
        text.extend_from_slice(arg.as_slice())?;
    }
    Ok(text)
}

#[test]
fn whole_commands(rt: HostRuntime) -> Result<(), Fail> {
    let alloc = rt.alloc();
    for which in 0..12 {
        let cmd = command(alloc, which)?;
        let text = spaced(alloc, &cmd)?;
        assert_eq!(rt; text.as_slice(), SENT[which].as_bytes());
    }
    Ok(())
}
