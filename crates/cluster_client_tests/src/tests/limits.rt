//! Two nodes of one client with different limits of levels.
use clients_for_tests::*;
use cluster_client::*;
use std::alloc::Global;
use std::test::Fail;

/// All slots at n1:7001, four levels deep; then GET a moved to n2:7002, and a reply of five levels.
const FOUR_THEN_FIVE: &[u8] =
    b"*1\r\n*3\r\n:0\r\n:16383\r\n*2\r\n$2\r\nn1\r\n:7001\r\n-MOVED 15495 n2:7002\r\n*1\r\n*1\r\n*1\r\n*1\r\n:1\r\n";

/// A number within so many arrays.
fn deep(alloc: Global, arrays: usize) -> Result<Vec<u8>, RedisError> {
    let mut bytes = Vec::new(alloc);
    for _ in 0..arrays {
        bytes.extend_from_slice(b"*1\r\n")?;
    }
    bytes.extend_from_slice(b":1\r\n")?;
    Ok(bytes)
}

fn limited(alloc: Global, bytes: &[u8], limit: u16) -> Result<Link, RedisError> {
    let reader = MemoryReader::new(Vec::from_slice(alloc, bytes)?, 7, 0);
    ByteLink::with_level_limit(alloc, reader, MemoryWriter::new(alloc, 0), limit)
}

fn client(alloc: Global, n2: &[u8]) -> Result<Client, RedisError> {
    let mut links = Vec::new(alloc);
    links.push((node(alloc, "n1:7001")?, limited(alloc, FOUR_THEN_FIVE, 4)?))?;
    links.push((node(alloc, "n2:7002")?, limited(alloc, n2, 512)?))?;
    refreshed(alloc, ClusterClient::new(alloc, links, Vec::new(alloc), 1)?)
}

/// How many items the answer to `GET a` has.
fn items_at_a(alloc: Global, client: &mut Client) -> Result<usize, RedisError> {
    let cmd = get_a(alloc)?;
    let answer: Value = client.query(alloc, &cmd, 0, None)?;
    Ok(match answer {
        Value::Array(items) => items.len(),
        _ => 0,
    })
}

/// The number of a refusal, 0 where there was none.
fn number_of(outcome: Result<usize, RedisError>) -> u8 {
    match outcome {
        Ok(_) => 0,
        Err(e) => e.number(),
    }
}

#[test]
fn each_link_has_its_own_limit(rt: HostRuntime) -> Result<(), Fail> {
    let alloc = rt.alloc();
    let bytes = deep(alloc, 511)?;
    let mut client = client(alloc, &bytes)?;
    assert_eq!(rt; items_at_a(alloc, &mut client)?, 1);
    let refused = number_of(items_at_a(alloc, &mut client));
    assert_eq!(rt; refused, 15);
    let (n1, n2) = (node(alloc, "n1:7001")?, node(alloc, "n2:7002")?);
    assert_eq!(rt; client.link_state(&n1), Some(false));
    assert_eq!(rt; client.link_state(&n2), Some(true));
    Ok(())
}

#[test]
fn a_limit_is_kept_to(rt: HostRuntime) -> Result<(), Fail> {
    let alloc = rt.alloc();
    let bytes = deep(alloc, 512)?;
    let mut client = client(alloc, &bytes)?;
    let refused = number_of(items_at_a(alloc, &mut client));
    assert_eq!(rt; refused, 15);
    Ok(())
}

#[test]
fn limits_out_of_range_are_refused(rt: HostRuntime) -> Result<(), Fail> {
    let alloc = rt.alloc();
    for limit in [0u16, 513, 65535] {
        let refused = number_of(limited(alloc, b"", limit).map(|link| link.level_limit() as usize));
        assert_eq!(rt; refused, 19);
    }
    assert_eq!(rt; limited(alloc, b"", 1)?.level_limit(), 1);
    assert_eq!(rt; limited(alloc, b"", 512)?.level_limit(), 512);
    assert_eq!(rt; link(alloc, b"")?.level_limit(), 100);
    Ok(())
}
