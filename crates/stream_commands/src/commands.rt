//! The stream commands whole: each with every argument, in the order in which the server reads them.
//!
//! Keys, ids, names, fields and values are one argument each. Every command waits for its reply. Each
//! function is refused for want of memory alone.
//!
//! Source: the Redis documentation of the commands (Syntax).
ghost use Rattle.std.specs.Prelude.{◌≡◌, ◌++◌, IfOk, map, codes, is_some, if◌then◌else◌};
ghost use Rattle.resp_args.specs.declared.cmd.Arg.TheVariants.{Simple};
ghost use Rattle.stream_commands.specs.Commands.{plain_command};
ghost use Rattle.stream_commands.specs.Commands as sentence;

use crate::add::StreamAddOptions;
use crate::autoclaim::StreamAutoClaimOptions;
use crate::claim::StreamClaimOptions;
use crate::policy::StreamDeletionPolicy;
use crate::read::StreamReadOptions;
use crate::trim::StreamTrimOptions;
use resp_args::{Cmd, ToRedisArgs, ToSingleRedisArg};
use std::alloc::{AllocError, Global};

/// `XADD key options id field value ..`.
pub fn xadd<K: ToSingleRedisArg, I: ToSingleRedisArg, F: ToSingleRedisArg, V: ToSingleRedisArg>(
    alloc: Global,
    key: &K,
    options: &StreamAddOptions,
    id: &I,
    fields: &[(F, V)],
) -> Result<Cmd, AllocError>
    ensures { IfOk result (λ c. c ≡ plain_command (sentence.xadd (K.arg key.now) options.now
        (I.arg id.now) (map (λ f. (F.arg f.0, V.arg f.1)) fields.now))) }
{
    command_of(alloc, (("XADD", key), options, id, fields))
}

/// `XTRIM key options`.
pub fn xtrim<K: ToSingleRedisArg>(
    alloc: Global,
    key: &K,
    options: &StreamTrimOptions,
) -> Result<Cmd, AllocError>
    ensures { IfOk result (λ c. c ≡ plain_command (sentence.xtrim (K.arg key.now) options.now)) }
{
    command_of(alloc, (("XTRIM", key), options))
}

/// `XREAD options STREAMS key .. id ..`, and with a group `XREADGROUP`.
pub fn xread<K: ToSingleRedisArg, I: ToSingleRedisArg>(
    alloc: Global,
    streams: &[(K, I)],
    options: &StreamReadOptions,
) -> Result<Cmd, AllocError>
    ensures { IfOk result (λ c. c ≡ plain_command (sentence.xread options.now
        (map (λ s. K.arg s.0) streams.now) (map (λ s. I.arg s.1) streams.now))) }
{
    let mut cmd = command_of(alloc, (read_word(options), options, "STREAMS"))?;
    add_keys(&mut cmd, streams)?;
    add_ids_of(&mut cmd, streams)?;
    Ok(cmd)
}

/// `XRANGE key start end`.
pub fn xrange<K: ToSingleRedisArg, S: ToSingleRedisArg, E: ToSingleRedisArg>(
    alloc: Global,
    key: &K,
    start: &S,
    end: &E,
) -> Result<Cmd, AllocError>
    ensures { IfOk result
        (λ c. c ≡ plain_command (sentence.xrange (K.arg key.now) (S.arg start.now) (E.arg end.now))) }
{
    command_of(alloc, ("XRANGE", key, start, end))
}

/// `XCLAIM key group consumer min-idle-time id .. options`.
pub fn xclaim<K: ToSingleRedisArg, G: ToSingleRedisArg, C: ToSingleRedisArg, I: ToSingleRedisArg>(
    alloc: Global,
    key: &K,
    group: &G,
    consumer: &C,
    min_idle: usize,
    ids: &[I],
    options: &StreamClaimOptions,
) -> Result<Cmd, AllocError>
    ensures { IfOk result (λ c. c ≡ plain_command (sentence.xclaim (K.arg key.now) (G.arg group.now)
        (C.arg consumer.now) min_idle (map I.arg ids.now) options.now)) }
{
    let mut cmd = command_of(alloc, (("XCLAIM", key), group, consumer, min_idle))?;
    add_each(&mut cmd, ids)?;
    cmd.arg(options)?;
    Ok(cmd)
}

/// `XAUTOCLAIM key group consumer min-idle-time start options`.
pub fn xautoclaim<
    K: ToSingleRedisArg,
    G: ToSingleRedisArg,
    C: ToSingleRedisArg,
    S: ToSingleRedisArg,
>(
    alloc: Global,
    key: &K,
    group: &G,
    consumer: &C,
    min_idle: usize,
    start: &S,
    options: &StreamAutoClaimOptions,
) -> Result<Cmd, AllocError>
    ensures { IfOk result (λ c. c ≡ plain_command (sentence.xautoclaim (K.arg key.now)
        (G.arg group.now) (C.arg consumer.now) min_idle (S.arg start.now) options.now)) }
{
    command_of(
        alloc,
        (
            ("XAUTOCLAIM", key, group),
            consumer,
            (min_idle, start),
            options,
        ),
    )
}

/// `XPENDING key group`.
pub fn xpending<K: ToSingleRedisArg, G: ToSingleRedisArg>(
    alloc: Global,
    key: &K,
    group: &G,
) -> Result<Cmd, AllocError>
    ensures { IfOk result (λ c. c ≡ plain_command (sentence.xpending (K.arg key.now) (G.arg group.now))) }
{
    command_of(alloc, ("XPENDING", key, group))
}

/// `XINFO STREAM key`.
pub fn xinfo_stream<K: ToSingleRedisArg>(alloc: Global, key: &K) -> Result<Cmd, AllocError>
    ensures { IfOk result (λ c. c ≡ plain_command (sentence.xinfo_stream (K.arg key.now))) }
{
    command_of(alloc, ("XINFO", "STREAM", key))
}

/// `XINFO GROUPS key`.
pub fn xinfo_groups<K: ToSingleRedisArg>(alloc: Global, key: &K) -> Result<Cmd, AllocError>
    ensures { IfOk result (λ c. c ≡ plain_command (sentence.xinfo_groups (K.arg key.now))) }
{
    command_of(alloc, ("XINFO", "GROUPS", key))
}

/// `XINFO CONSUMERS key group`.
pub fn xinfo_consumers<K: ToSingleRedisArg, G: ToSingleRedisArg>(
    alloc: Global,
    key: &K,
    group: &G,
) -> Result<Cmd, AllocError>
    ensures { IfOk result
        (λ c. c ≡ plain_command (sentence.xinfo_consumers (K.arg key.now) (G.arg group.now))) }
{
    command_of(alloc, ("XINFO", "CONSUMERS", key, group))
}

/// `XDELEX key policy IDS count id ..`.
pub fn xdel_ex<K: ToSingleRedisArg, I: ToSingleRedisArg>(
    alloc: Global,
    key: &K,
    ids: &[I],
    policy: &StreamDeletionPolicy,
) -> Result<Cmd, AllocError>
    ensures { IfOk result
        (λ c. c ≡ plain_command (sentence.xdelex (K.arg key.now) policy.now (map I.arg ids.now))) }
{
    let mut cmd = command_of(alloc, (("XDELEX", key), policy, ("IDS", ids.len())))?;
    add_each(&mut cmd, ids)?;
    Ok(cmd)
}

fn read_word(options: &StreamReadOptions) -> &'static str
    ensures { result.now ≡ (if is_some options.now.group then codes "XREADGROUP" else codes "XREAD") }
{
    if options.read_only() {
        "XREAD"
    } else {
        "XREADGROUP"
    }
}

fn command_of<T: ToRedisArgs + Drop>(alloc: Global, args: T) -> Result<Cmd, AllocError>
    ensures { IfOk result (λ c. c ≡ plain_command (T.args args)) }
{
    let mut cmd = Cmd::new(alloc);
    cmd.arg(args)?;
    Ok(cmd)
}

fn add_each<T: ToSingleRedisArg>(cmd: &mut Cmd, items: &[T]) -> Result<(), AllocError>
    ensures { IfOk result
        (λ _. cmd.new ≡ record cmd.old { args = cmd.old.args ++ map Simple (map T.arg items.now) }) }
{
    for item in items {
        cmd.arg(item)?;
    }
    Ok(())
}

fn add_keys<K: ToSingleRedisArg, I>(cmd: &mut Cmd, streams: &[(K, I)]) -> Result<(), AllocError>
    ensures { IfOk result
        (λ _. cmd.new ≡ record cmd.old
        { args = cmd.old.args ++ map Simple (map (λ s. K.arg s.0) streams.now) }) }
{
    for stream in streams {
        cmd.arg(&stream.0)?;
    }
    Ok(())
}

fn add_ids_of<K, I: ToSingleRedisArg>(cmd: &mut Cmd, streams: &[(K, I)]) -> Result<(), AllocError>
    ensures { IfOk result
        (λ _. cmd.new ≡ record cmd.old
        { args = cmd.old.args ++ map Simple (map (λ s. I.arg s.1) streams.now) }) }
{
    for stream in streams {
        cmd.arg(&stream.1)?;
    }
    Ok(())
}
