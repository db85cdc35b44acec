//! Calls, most of them on the key `a`.
use crate::clients::Client;
use cluster_client::*;
use std::alloc::{AllocError, Global};
use std::fmt::Debug;

/// A command of the words in a text.
pub fn command_of(alloc: Global, words: &str) -> Result<Cmd, AllocError> {
    let mut command = Cmd::new(alloc);
    for word in words.split(' ') {
        command.arg(word)?;
    }
    Ok(command)
}

pub fn get_a(alloc: Global) -> Result<Cmd, AllocError> {
    let mut cmd = command::cmd(alloc, "GET")?;
    cmd.arg("a")?;
    Ok(cmd)
}

/// The answer to `GET a` as a number.
pub fn number_at_a(
    alloc: Global,
    client: &mut Client,
    strategy: Option<&dyn ReadRoutingStrategy>,
) -> Result<i64, RedisError> {
    let cmd = get_a(alloc)?;
    client.query(alloc, &cmd, 0, strategy)
}

/// An answer as it is shown.
pub fn shown<T: Debug + Drop>(
    alloc: Global,
    outcome: Result<T, RedisError>,
) -> Result<String, RedisError> {
    let value = outcome?;
    Ok(format!(in alloc; "{value:?}")?)
}

pub fn xadd(alloc: Global, client: &mut Client) -> Result<String, RedisError> {
    let trim = StreamTrimStrategy::maxlen(StreamTrimmingMode::Approx, 10);
    let options = StreamAddOptions::empty().nomkstream().trim(trim);
    shown(
        alloc,
        client.xadd(alloc, "a", &options, "*", &[("f", "v")], None),
    )
}

pub fn xread(alloc: Global, client: &mut Client) -> Result<String, RedisError> {
    let options = StreamReadOptions::empty().group(alloc, "g", "c")?;
    shown(alloc, client.xread(alloc, &[("a", ">")], &options, None))
}
