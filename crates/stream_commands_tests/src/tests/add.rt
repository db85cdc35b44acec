//! Options of XADD, policies and idempotency modes.
use crate::tests::writing::{text, writes};
use std::alloc::{AllocError, Global};
use std::test::*;
use stream_commands::*;

/// `NOMKSTREAM`, `KEEPREF`, idempotent for `producer-1` and `iid-1`, and trimmed to about 100.
fn by_producer(alloc: Global) -> Result<StreamAddOptions, AllocError> {
    let (producer, id) = (text(alloc, "producer-1")?, text(alloc, "iid-1")?);
    Ok(
        StreamAddOptions::empty()
            .nomkstream()
            .trim(StreamTrimStrategy::maxlen(StreamTrimmingMode::Approx, 100))
            .idmp(producer, id)
            .set_deletion_policy(StreamDeletionPolicy::KeepRef),
    )
}

/// `DELREF`, idempotent by the server for `producer-2`, and trimmed to the ids from 123456-0.
fn by_server(alloc: Global) -> Result<StreamAddOptions, AllocError> {
    let (producer, id) = (text(alloc, "producer-2")?, text(alloc, "123456-0")?);
    Ok(
        StreamAddOptions::empty()
            .trim(StreamTrimStrategy::minid(StreamTrimmingMode::Exact, id))
            .idmpauto(producer)
            .set_deletion_policy(StreamDeletionPolicy::DelRef),
    )
}

#[test]
fn add_options(rt: HostRuntime) -> Result<(), Fail> {
    let alloc = rt.alloc();
    let all = by_producer(alloc)?;
    writes(
        &rt,
        alloc,
        all,
        "NOMKSTREAM KEEPREF IDMP producer-1 iid-1 MAXLEN ~ 100",
    );
    let all = by_server(alloc)?;
    writes(
        &rt,
        alloc,
        all,
        "DELREF IDMPAUTO producer-2 MINID = 123456-0",
    );
    writes(&rt, alloc, StreamAddOptions::empty(), "");
    Ok(())
}

fn own_mode(alloc: Global) -> Result<StreamIdempotencyMode, AllocError> {
    let mode = StreamIdempotencyMode::Manual {
        producer_id: text(alloc, "p")?,
        idempotent_id: text(alloc, "i")?,
    };
    mode.clone()
}

fn servers_mode(alloc: Global) -> Result<StreamIdempotencyMode, AllocError> {
    let mode = StreamIdempotencyMode::Automatic {
        producer_id: text(alloc, "p")?,
    };
    mode.clone()
}

#[test]
fn policies_and_modes(rt: HostRuntime) -> Result<(), Fail> {
    let alloc = rt.alloc();
    let (own, servers) = (own_mode(alloc)?, servers_mode(alloc)?);
    writes(&rt, alloc, own, "IDMP p i");
    writes(&rt, alloc, servers, "IDMPAUTO p");
    let deletes = StreamDeletionPolicy::DelRef.clone()?;
    writes(&rt, alloc, deletes, "DELREF");
    writes(&rt, alloc, StreamDeletionPolicy::default(), "KEEPREF");
    writes(&rt, alloc, StreamDeletionPolicy::Acked, "ACKED");
    Ok(())
}
