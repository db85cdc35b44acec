//! Answers as other types, and what a client tells of its map and of its need for a refresh.
use clients_for_tests::*;
use cluster_client::*;
use std::alloc::{AllocError, Global};
use std::process::Abort;
use std::test::Fail;

/// All slots at n1:7001; GET a moved to n2:7002; a refresh moved there too; all slots again.
const MOVED_TWICE: &[u8] =
    b"*1\r\n*3\r\n:0\r\n:16383\r\n*2\r\n$2\r\nn1\r\n:7001\r\n-MOVED 15495 n2:7002\r\n-MOVED 1 n2:7002\r\n*1\r\n*3\r\n:0\r\n:16383\r\n*2\r\n$2\r\nn1\r\n:7001\r\n";

/// All slots at n1:7001, then a text that is no number, and a number.
const TEXT_AND_NUMBER: &[u8] =
    b"*1\r\n*3\r\n:0\r\n:16383\r\n*2\r\n$2\r\nn1\r\n:7001\r\n$1\r\nx\r\n$1\r\n7\r\n";

/// All slots at n1:7001, then a push before a number, and an end within a text.
const PUSH_AND_NUMBER: &[u8] =
    b"*1\r\n*3\r\n:0\r\n:16383\r\n*2\r\n$2\r\nn1\r\n:7001\r\n>2\r\n$10\r\ninvalidate\r\n_\r\n:1\r\n$3\r\nab";

#[test]
fn a_reply_of_another_type_leaves_the_link_in_step(rt: HostRuntime) -> Result<(), Fail> {
    let alloc = rt.alloc();
    let mut client = refreshed_of_two(alloc, TEXT_AND_NUMBER, b"")?;
    let refused = kind_of(number_at_a(alloc, &mut client, None));
    assert_eq!(rt; refused, Some(ErrorKind::UnexpectedReturnType));
    assert_eq!(rt; number_at_a(alloc, &mut client, None)?, 7);
    Ok(())
}

#[test]
fn moved_tells_that_a_refresh_is_needed(rt: HostRuntime) -> Result<(), Fail> {
    let alloc = rt.alloc();
    let mut client = refreshed_of_two(alloc, MOVED_TWICE, b":1\r\n")?;
    assert!(rt; !client.needs_refresh());
    assert_eq!(rt; number_at_a(alloc, &mut client, None)?, 1);
    assert!(rt; is_last_asked(alloc, &client, "n2:7002")?);
    assert!(rt; has_sent(alloc, &client, "n2:7002", b"*2\r\n$3\r\nGET\r\n$1\r\na\r\n")?);
    assert!(rt; client.needs_refresh());
    assert!(rt; !is_refreshed(alloc, &mut client)?);
    assert!(rt; client.needs_refresh());
    assert!(rt; is_refreshed(alloc, &mut client)?);
    assert!(rt; !client.needs_refresh());
    Ok(())
}

#[test]
fn moved_to_a_refresh_is_not_counted(rt: HostRuntime) -> Result<(), Fail> {
    let alloc = rt.alloc();
    let mut client = client_of_two(alloc, b"-MOVED 1 n2:7002\r\n", b"", 1)?;
    assert!(rt; !is_refreshed(alloc, &mut client)?);
    assert!(rt; !client.needs_refresh());
    Ok(())
}

/// Whether there is one shard, of n1:7001 alone and with all slots.
fn is_all_at_n1(topology: &ClusterTopology) -> bool {
    match topology.shard_for_slot(15495) {
        None => false,
        Some(shard) => {
            topology.shards().count() == 1
                && shard.slot_ranges() == [(0, 16383)].as_slice()
                && shard.primary().host() == "n1"
                && shard.primary().port() == 7001
                && shard.replicas().is_empty()
        }
    }
}

#[test]
fn a_refresh_shows_its_shards(rt: HostRuntime) -> Result<(), Fail> {
    let alloc = rt.alloc();
    let mut client = client_of_two(alloc, TEXT_AND_NUMBER, b"", 1)?;
    assert_eq!(rt; client.topology(alloc)?.shards().count(), 0);
    assert!(rt; is_refreshed(alloc, &mut client)?);
    assert!(rt; is_all_at_n1(&client.topology(alloc)?));
    Ok(())
}

/// The number of the command's refusal, 0 where it is answered.
fn refusal(alloc: Global, client: &mut Client, cmd: &Cmd) -> u8 {
    let answer: Result<i64, RedisError> = client.query(alloc, cmd, 0, None);
    match answer {
        Ok(_) => 0,
        Err(e) => e.number(),
    }
}

/// `GET a` without a response.
fn silent_get(alloc: Global) -> Result<Cmd, AllocError> {
    let mut cmd = get_a(alloc)?;
    cmd.set_no_response(true);
    Ok(cmd)
}

/// `MGET a` with a gap behind the key.
fn gapped_mget(alloc: Global) -> Result<Cmd, AllocError> {
    let mut cmd = command::cmd(alloc, "MGET")?;
    cmd.arg("a")?;
    cmd.cursor_arg(0)?;
    Ok(cmd)
}

/// The command is refused with this number, and nothing is sent.
fn is_not_sent<R: Abort>(rt: &R, alloc: Global, cmd: &Cmd, number: u8) -> Result<(), Fail> {
    let mut client = refreshed_of_two(alloc, TEXT_AND_NUMBER, b"")?;
    assert_eq!(rt; refusal(alloc, &mut client, cmd), number);
    assert_eq!(rt; client.asked().len(), 0);
    Ok(())
}

#[test]
fn a_command_without_a_response_is_not_sent(rt: HostRuntime) -> Result<(), Fail> {
    let alloc = rt.alloc();
    is_not_sent(&rt, alloc, &silent_get(alloc)?, 2)
}

#[test]
fn a_split_command_with_a_gap_is_not_sent(rt: HostRuntime) -> Result<(), Fail> {
    let alloc = rt.alloc();
    is_not_sent(&rt, alloc, &gapped_mget(alloc)?, 4)
}

/// How many pushes were set aside at the node.
fn push_count(alloc: Global, client: &Client, address: &str) -> Result<Option<usize>, RedisError> {
    let node = node(alloc, address)?;
    Ok(client.pushes(&node).map(|pushes| pushes.len()))
}

/// Whether the node's link is open.
fn link_state(alloc: Global, client: &Client, address: &str) -> Result<Option<bool>, RedisError> {
    let node = node(alloc, address)?;
    Ok(client.link_state(&node))
}

#[test]
fn a_node_keeps_its_pushes(rt: HostRuntime) -> Result<(), Fail> {
    let alloc = rt.alloc();
    let mut client = refreshed_of_two(alloc, PUSH_AND_NUMBER, b"")?;
    assert_eq!(rt; push_count(alloc, &client, "n1:7001")?, Some(0));
    assert_eq!(rt; number_at_a(alloc, &mut client, None)?, 1);
    assert_eq!(rt; push_count(alloc, &client, "n1:7001")?, Some(1));
    assert_eq!(rt; push_count(alloc, &client, "n2:7002")?, Some(0));
    assert_eq!(rt; push_count(alloc, &client, "n3:7003")?, None);
    Ok(())
}

#[test]
fn an_early_end_closes_the_link_of_its_node(rt: HostRuntime) -> Result<(), Fail> {
    let alloc = rt.alloc();
    let mut client = refreshed_of_two(alloc, PUSH_AND_NUMBER, b"")?;
    assert_eq!(rt; number_at_a(alloc, &mut client, None)?, 1);
    assert_eq!(rt; link_state(alloc, &client, "n1:7001")?, Some(true));
    let ended = kind_of(number_at_a(alloc, &mut client, None));
    assert_eq!(rt; ended, Some(ErrorKind::Io));
    assert_eq!(rt; link_state(alloc, &client, "n1:7001")?, Some(false));
    assert_eq!(rt; link_state(alloc, &client, "n2:7002")?, Some(true));
    assert_eq!(rt; link_state(alloc, &client, "n3:7003")?, None);
    Ok(())
}

/// All slots at n1:7001, then the refusal of a cluster that is down, twice.
const DOWN: &[u8] =
    b"*1\r\n*3\r\n:0\r\n:16383\r\n*2\r\n$2\r\nn1\r\n:7001\r\n-CLUSTERDOWN Hash slot not served\r\n-CLUSTERDOWN Hash slot not served\r\n";

/// The kind of the refusal of a command that goes to all nodes, none where it is answered.
fn fan_out_kind(
    alloc: Global,
    client: &mut Client,
    name: &str,
) -> Result<Option<ErrorKind>, RedisError> {
    let cmd = command::cmd(alloc, name)?;
    Ok(match client.fan_out(alloc, &cmd) {
        Ok(_) => None,
        Err(e) => Some(e.kind()),
    })
}

#[test]
fn a_servers_refusal_is_told_as_the_servers(rt: HostRuntime) -> Result<(), Fail> {
    let alloc = rt.alloc();
    let mut client = refreshed_of_two(alloc, DOWN, b"")?;
    let down = Some(ErrorKind::Server(ServerErrorKind::ClusterDown));
    assert_eq!(rt; kind_of(number_at_a(alloc, &mut client, None)), down);
    assert_eq!(rt; fan_out_kind(alloc, &mut client, "DBSIZE")?, down);
    assert_eq!(rt; link_state(alloc, &client, "n1:7001")?, Some(true));
    Ok(())
}

#[test]
fn a_refused_fan_out_tells_why(rt: HostRuntime) -> Result<(), Fail> {
    let alloc = rt.alloc();
    let mut client = client_of_two(alloc, TEXT_AND_NUMBER, b"", 1)?;
    let unknown = fan_out_kind(alloc, &mut client, "DBSIZE")?;
    assert_eq!(rt; unknown, Some(ErrorKind::ClusterConnectionNotFound));
    assert!(rt; is_refreshed(alloc, &mut client)?);
    let keyed = fan_out_kind(alloc, &mut client, "ECHO")?;
    assert_eq!(rt; keyed, Some(ErrorKind::Client));
    assert_eq!(rt; client.asked().len(), 0);
    Ok(())
}

/// The answer to a command that goes to a node, as a number.
fn number_of_node(
    alloc: Global,
    client: &mut Client,
    address: &str,
    cmd: &Cmd,
) -> Result<i64, RedisError> {
    let node = node(alloc, address)?;
    client.query_at(alloc, &node, cmd)
}

#[test]
fn a_node_that_is_named_answers_itself(rt: HostRuntime) -> Result<(), Fail> {
    let alloc = rt.alloc();
    let moved = b"-MOVED 15495 n1:7001\r\n:3\r\n";
    let mut client = client_of_two(alloc, b":7\r\n$1\r\nx\r\n", moved, 1)?;
    let get = get_a(alloc)?;
    assert_eq!(rt; number_of_node(alloc, &mut client, "n1:7001", &get)?, 7);
    let text = kind_of(number_of_node(alloc, &mut client, "n1:7001", &get));
    assert_eq!(rt; text, Some(ErrorKind::UnexpectedReturnType));
    assert!(rt; !client.needs_refresh());
    let moved = kind_of(number_of_node(alloc, &mut client, "n2:7002", &get));
    assert_eq!(rt; moved, Some(ErrorKind::Server(ServerErrorKind::Moved)));
    assert!(rt; client.needs_refresh());
    assert!(rt; is_last_asked(alloc, &client, "n2:7002")?);
    assert_eq!(rt; number_of_node(alloc, &mut client, "n2:7002", &get)?, 3);
    let silent = number_of_node(alloc, &mut client, "n1:7001", &silent_get(alloc)?);
    assert_eq!(rt; kind_of(silent), Some(ErrorKind::Client));
    assert_eq!(rt; client.asked().len(), 0);
    Ok(())
}
