//! Links that are handed in, and handed back.
use clients_for_tests::*;
use cluster_client::*;
use std::alloc::Global;
use std::test::Fail;

/// Puts a link with these bytes to n2:7002, and tells whether the one before it was open.
fn relink(alloc: Global, client: &mut Client, bytes: &[u8]) -> Result<Option<bool>, RedisError> {
    let n2 = node(alloc, "n2:7002")?;
    match client.set_link(n2, link(alloc, bytes)?)? {
        Some(old) => Ok(Some(old.is_open())),
        None => Ok(None),
    }
}

/// Whether n2:7002 is the one node without an open link.
fn lacks_n2(alloc: Global, client: &Client) -> Result<bool, RedisError> {
    let n2 = node(alloc, "n2:7002")?;
    Ok(match client.unlinked(alloc)?.as_slice() {
        [only] => *only == n2,
        _ => false,
    })
}

#[test]
fn a_link_in_the_place_of_a_failed_one(rt: HostRuntime) -> Result<(), Fail> {
    let alloc = rt.alloc();
    let mut client = client_of_halves(alloc)?;
    assert!(rt; lacks_n2(alloc, &client)?);
    assert_eq!(rt; relink(alloc, &mut client, b"")?, None);
    assert!(rt; client.unlinked(alloc)?.is_empty());
    assert_eq!(rt;
        kind_of(number_at_a(alloc, &mut client, None)),
        Some(ErrorKind::Io)
    );
    assert!(rt; lacks_n2(alloc, &client)?);
    assert_eq!(rt; relink(alloc, &mut client, b":5\r\n")?, Some(false));
    assert_eq!(rt; number_at_a(alloc, &mut client, None)?, 5);
    Ok(())
}

#[test]
fn links_come_back_in_their_order(rt: HostRuntime) -> Result<(), Fail> {
    let alloc = rt.alloc();
    let mut client = client_of_halves(alloc)?;
    relink(alloc, &mut client, b":5\r\n")?;
    let mut links = client.into_links();
    assert_eq!(rt; links.len(), 2);
    let n1 = node(alloc, "n1:7001")?;
    assert!(rt; links[0].0 == n1);
    let answer = links[1].1.req_packed_command(alloc, b"x")?;
    assert!(rt; matches!(&answer, Value::Int(5)));
    Ok(())
}
