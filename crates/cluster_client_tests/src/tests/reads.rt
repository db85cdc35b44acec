//! Reads from replicas, by a strategy.
use clients_for_tests::*;
use cluster_client::*;
use std::alloc::Global;
use std::test::Fail;

/// The map of `WITH_REPLICAS`, then +OK.
const ALL_AND_OKAY: &[u8] =
    b"*1\r\n*5\r\n:0\r\n:16383\r\n*2\r\n$2\r\nn1\r\n:7001\r\n*2\r\n$2\r\nn3\r\n:7003\r\n*2\r\n$2\r\nn4\r\n:7004\r\n+OK\r\n";

/// Slots to 4095 at n1:7001 with the replica n3:7003, to 8191 at n1:7001 alone, the others at n2:7002
/// with the replica n4:7004; then one item.
const THREE_SHARDS: &[u8] =
    b"*3\r\n*4\r\n:0\r\n:4095\r\n*2\r\n$2\r\nn1\r\n:7001\r\n*2\r\n$2\r\nn3\r\n:7003\r\n*3\r\n:4096\r\n:8191\r\n*2\r\n$2\r\nn1\r\n:7001\r\n*4\r\n:8192\r\n:16383\r\n*2\r\n$2\r\nn2\r\n:7002\r\n*2\r\n$2\r\nn4\r\n:7004\r\n*1\r\n$1\r\n3\r\n";

/// Whether the strategy's only answer was this node.
fn is_picked(alloc: Global, client: &Client, address: &str) -> Result<bool, RedisError> {
    let node = node(alloc, address)?;
    Ok(match client.picked() {
        [only] => *only == node,
        _ => false,
    })
}

#[test]
fn a_strategy_picks_the_node_of_a_read(rt: HostRuntime) -> Result<(), Fail> {
    let alloc = rt.alloc();
    let moved = b"-MOVED 15495 n1:7001\r\n";
    let mut client = refreshed_of_replicas(alloc, WITH_REPLICAS, b":3\r\n", moved)?;
    assert_eq!(rt; client.picked().len(), 0);
    let second = Nth::new(1);
    assert_eq!(rt; number_at_a(alloc, &mut client, Some(&second))?, 1);
    assert_eq!(rt; second.asked.get(), 1);
    assert_eq!(rt; second.told.get(), 0);
    assert!(rt; is_picked(alloc, &client, "n4:7004")?);
    assert!(rt; is_last_asked(alloc, &client, "n1:7001")?);
    assert_eq!(rt; number_at_a(alloc, &mut client, Some(&Nth::new(0)))?, 3);
    assert!(rt; is_picked(alloc, &client, "n3:7003")?);
    Ok(())
}

#[test]
fn without_a_strategy_a_read_goes_to_the_primary(rt: HostRuntime) -> Result<(), Fail> {
    let alloc = rt.alloc();
    let mut client = refreshed_of_replicas(alloc, WITH_REPLICAS, b"", b"")?;
    assert_eq!(rt; number_at_a(alloc, &mut client, None)?, 1);
    assert_eq!(rt; client.picked().len(), 0);
    assert!(rt; is_last_asked(alloc, &client, "n1:7001")?);
    Ok(())
}

/// Whether `SET a 1` is answered by +OK.
fn is_set(alloc: Global, client: &mut Client, strategy: &Nth) -> Result<bool, RedisError> {
    let mut set = command::cmd(alloc, "SET")?;
    set.arg("a")?;
    set.arg("1")?;
    let answer: Value = client.query(alloc, &set, 0, Some(strategy))?;
    Ok(answer == Value::Okay)
}

#[test]
fn no_strategy_is_asked_for_a_write(rt: HostRuntime) -> Result<(), Fail> {
    let alloc = rt.alloc();
    let mut client = refreshed_of_replicas(alloc, ALL_AND_OKAY, b"", b"")?;
    let strategy = Nth::new(0);
    assert!(rt; is_set(alloc, &mut client, &strategy)?);
    assert_eq!(rt; strategy.asked.get(), 0);
    assert_eq!(rt; strategy.told.get(), 0);
    assert_eq!(rt; client.picked().len(), 0);
    Ok(())
}

#[test]
fn a_pick_without_a_link_is_told(rt: HostRuntime) -> Result<(), Fail> {
    let alloc = rt.alloc();
    let mut client = refreshed_of_replicas(alloc, WITH_REPLICAS, b"$3\r\nab", b"")?;
    let ended = kind_of(number_at_a(alloc, &mut client, Some(&Nth::new(0))));
    assert_eq!(rt; ended, Some(ErrorKind::Io));
    let closed = kind_of(number_at_a(alloc, &mut client, Some(&Nth::new(0))));
    assert_eq!(rt; closed, Some(ErrorKind::ClusterConnectionNotFound));
    assert!(rt; is_picked(alloc, &client, "n3:7003")?);
    assert_eq!(rt; client.asked().len(), 0);
    Ok(())
}

/// Whether `MGET a c b` is answered, its parts sent from the last to the first.
fn are_read_backwards(
    alloc: Global,
    client: &mut Client,
    strategy: &Nth,
) -> Result<bool, RedisError> {
    let mut mget = command::cmd(alloc, "MGET")?;
    mget.arg("a")?;
    mget.arg("c")?;
    mget.arg("b")?;
    let answer: Result<Value, RedisError> = client.query_ordered(
        alloc,
        &mget,
        &[2, 1, 0],
        0,
        Some(strategy),
    );
    Ok(answer.is_ok())
}

/// Whether the strategy's answers were these two nodes.
fn are_picked(
    alloc: Global,
    client: &Client,
    first: &str,
    second: &str,
) -> Result<bool, RedisError> {
    let first = node(alloc, first)?;
    let second = node(alloc, second)?;
    Ok(match client.picked() {
        [a, b] => *a == first && *b == second,
        _ => false,
    })
}

#[test]
fn a_strategy_picks_for_each_part_with_replicas(rt: HostRuntime) -> Result<(), Fail> {
    let alloc = rt.alloc();
    let b = b"*1\r\n$1\r\n2\r\n";
    let a = b"*1\r\n$1\r\n1\r\n";
    let mut client = refreshed_of_replicas(alloc, THREE_SHARDS, b, a)?;
    let strategy = Nth::new(0);
    assert!(rt; are_read_backwards(alloc, &mut client, &strategy)?);
    assert_eq!(rt; strategy.asked.get(), 2);
    assert_eq!(rt; strategy.told.get(), 0);
    assert!(rt; are_picked(alloc, &client, "n4:7004", "n3:7003")?);
    assert!(rt;
        has_sent(
            alloc,
            &client,
            "n3:7003",
            b"*2\r\n$4\r\nMGET\r\n$1\r\nb\r\n"
        )?
    );
    Ok(())
}
