//! Commands whose direction is known: they are answered as by `query`.
use clients_for_tests::*;
use cluster_client::*;
use std::alloc::Global;
use std::process::Abort;
use std::test::Fail;

/// A command as words, and what the nodes of two halves reply behind the map.
#[derive(Drop)]
struct Row {
    words: &'static str,
    n1: &'static [u8],
    n2: &'static [u8],
}

const ROWS: [Row; 4] = [
    Row {
        words: "GET a",
        n1: b"",
        n2: b"$1\r\nx\r\n",
    },
    Row {
        words: "MGET b a b",
        n1: b"*2\r\n$1\r\n1\r\n$1\r\n2\r\n",
        n2: b"*1\r\n$1\r\n3\r\n",
    },
    Row {
        words: "GET a",
        n1: b"$1\r\ny\r\n",
        n2: b"-MOVED 15495 n1:7001\r\n",
    },
    Row {
        words: "KEYS *",
        n1: b"",
        n2: b"",
    },
];

/// A client of two nodes, each of half the slots.
fn client(alloc: Global, row: &Row) -> Result<Client, RedisError> {
    let mut n1 = Vec::from_slice(alloc, HALVES)?;
    n1.extend_from_slice(row.n1)?;
    refreshed(alloc, client_of_two(alloc, &n1, row.n2, 3)?)
}

/// What a call answered, or the number of its refusal, and which nodes it asked.
fn told(
    alloc: Global,
    client: &Client,
    outcome: Result<Value, RedisError>,
) -> Result<String, RedisError> {
    let mut text = match outcome {
        Ok(value) => format!(in alloc; "{value:?}")?,
        Err(error) => format!(in alloc; "{:?}", error.kind())?,
    };
    for request in client.asked() {
        text.push_str(" ")?;
        text.push_str(request.node.host())?;
    }
    Ok(text)
}

fn by_query(alloc: Global, row: &Row) -> Result<String, RedisError> {
    let mut client = client(alloc, row)?;
    let outcome = client.query(alloc, &command_of(alloc, row.words)?, 0, None);
    told(alloc, &client, outcome)
}

fn by_direction(alloc: Global, row: &Row) -> Result<String, RedisError> {
    let mut client = client(alloc, row)?;
    let command = command_of(alloc, row.words)?;
    let direction = Direction::for_routable(alloc, &command, &[])?;
    let directed = Directed {
        command: &command,
        direction: &direction,
    };
    let outcome = client.query_directed(alloc, &directed, 0, None);
    told(alloc, &client, outcome)
}

#[test]
fn a_known_direction_is_that_of_a_query(rt: HostRuntime) -> Result<(), Fail> {
    let alloc = rt.alloc();
    for row in &ROWS {
        assert_eq!(rt;
            by_direction(alloc, row)?.as_str(),
            by_query(alloc, row)?.as_str()
        );
    }
    assert_eq!(rt;
        by_direction(alloc, &ROWS[2])?.as_str(),
        "BulkString([121]) n2 n1"
    );
    Ok(())
}

/// A read goes to the replica that the strategy picks, though its direction is by no names that only read.
#[test]
fn a_read_with_a_known_direction_goes_to_a_replica(rt: HostRuntime) -> Result<(), Fail> {
    let alloc = rt.alloc();
    let mut client = refreshed_of_replicas(alloc, WITH_REPLICAS, b"", b":4\r\n")?;
    let command = get_a(alloc)?;
    let direction = Direction::for_routable(alloc, &command, &[])?;
    let directed = Directed {
        command: &command,
        direction: &direction,
    };
    let number: i64 = client.query_directed(alloc, &directed, 0, Some(&Nth::new(1)))?;
    assert_eq!(rt; number, 4);
    assert!(rt; is_last_asked(alloc, &client, "n4:7004")?);
    Ok(())
}

const SIZES: Row = Row {
    words: "DBSIZE",
    n1: b":2\r\n",
    n2: b":3\r\n",
};

/// What a command to all primaries is answered by `fan_out`, and where its direction is known.
#[test]
fn a_known_direction_is_that_of_a_fan_out(rt: HostRuntime) -> Result<(), Fail> {
    let alloc = rt.alloc();
    let command = command_of(alloc, SIZES.words)?;
    let direction = Direction::for_routable(alloc, &command, &[])?;
    let directed = Directed {
        command: &command,
        direction: &direction,
    };
    let mut by_command = client(alloc, &SIZES)?;
    let sum = by_command.fan_out(alloc, &command);
    let mut by_direction = client(alloc, &SIZES)?;
    let told_sum = by_direction.fan_out_directed(alloc, &directed);
    assert_eq!(rt; told(alloc, &by_command, sum)?.as_str(), "Int(5) n1 n2");
    assert_eq!(rt;
        told(alloc, &by_direction, told_sum)?.as_str(),
        "Int(5) n1 n2"
    );
    Ok(())
}
