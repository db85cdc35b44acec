//! Transactions over two nodes, by what real servers replied.
use clients_for_tests::*;
use cluster_client::*;
use std::alloc::{AllocError, Global};
use std::process::Abort;
use std::test::Fail;

/// The commands, what each node replies to them, and what has to be told: the answer, whether a refresh is
/// needed, and the requests.
#[derive(Drop)]
struct Row {
    commands: &'static [&'static str],
    budget: u16,
    n1: &'static [u8],
    n2: &'static [u8],
    told: &'static str,
}

const TWO: &[&str] = &["SET {x}a 1", "INCR {x}a"];

const ROWS: [Row; 20] = [
    // Done, where the slot is at home.
    Row {
        commands: TWO,
        budget: 1,
        n1: b"+OK\r\n+QUEUED\r\n+QUEUED\r\n*2\r\n+OK\r\n:2\r\n",
        n2: b"",
        told: "Array([Okay, Int(2)]), false, n1 MULTI, n1 SET {x}a 1, n1 INCR {x}a, n1 EXEC",
    },
    // Another node's slot: sent again, whole.
    Row {
        commands: TWO,
        budget: 1,
        n1: b"+OK\r\n-MOVED 16287 n2:7002\r\n-MOVED 16287 n2:7002\r\n-EXECABORT Transaction discarded because of previous errors.\r\n",
        n2: b"+OK\r\n+QUEUED\r\n+QUEUED\r\n*2\r\n+OK\r\n:2\r\n",
        told: "Array([Okay, Int(2)]), true, n1 MULTI, n1 SET {x}a 1, n1 INCR {x}a, n1 EXEC, n2 MULTI, n2 SET {x}a 1, n2 INCR {x}a, n2 EXEC",
    },
    // A command that can not be queued: nothing ran, and its error is told.
    Row {
        commands: &["SET {x}a 1", "GET {x}a 1"],
        budget: 1,
        n1: b"+OK\r\n+QUEUED\r\n-ERR wrong number of arguments for 'get' command\r\n-EXECABORT Transaction discarded because of previous errors.\r\n",
        n2: b"",
        told: "ERR wrong number of arguments for 'get' command, false, n1 MULTI, n1 SET {x}a 1, n1 GET {x}a 1, n1 EXEC",
    },
    // One that fails when it runs: the others ran.
    Row {
        commands: TWO,
        budget: 1,
        n1: b"+OK\r\n+QUEUED\r\n+QUEUED\r\n*2\r\n+OK\r\n-MOVED 16287 n2:7002\r\n",
        n2: b"",
        told: "Array([Okay, ServerError(ServerError { code: \"MOVED\", detail: Some(\"16287 n2:7002\") })]), false, n1 MULTI, n1 SET {x}a 1, n1 INCR {x}a, n1 EXEC",
    },
    // The slot has left when EXEC comes.
    Row {
        commands: TWO,
        budget: 1,
        n1: b"+OK\r\n+QUEUED\r\n+QUEUED\r\n-MOVED 16287 n2:7002\r\n",
        n2: b"+OK\r\n+QUEUED\r\n+QUEUED\r\n*2\r\n+OK\r\n:2\r\n",
        told: "Array([Okay, Int(2)]), true, n1 MULTI, n1 SET {x}a 1, n1 INCR {x}a, n1 EXEC, n2 MULTI, n2 SET {x}a 1, n2 INCR {x}a, n2 EXEC",
    },
    // The slot leaves, and one key is gone: ASKING goes before MULTI.
    Row {
        commands: TWO,
        budget: 1,
        n1: b"+OK\r\n+QUEUED\r\n-ASK 16287 n2:7002\r\n-EXECABORT Transaction discarded because of previous errors.\r\n",
        n2: b"+OK\r\n+OK\r\n+QUEUED\r\n+QUEUED\r\n*2\r\n+OK\r\n:2\r\n",
        told: "Array([Okay, Int(2)]), false, n1 MULTI, n1 SET {x}a 1, n1 INCR {x}a, n1 EXEC, n2 ASKING MULTI, n2 SET {x}a 1, n2 INCR {x}a, n2 EXEC",
    },
    // The migration begins between queueing and EXEC.
    Row {
        commands: TWO,
        budget: 1,
        n1: b"+OK\r\n+QUEUED\r\n+QUEUED\r\n-ASK 16287 n2:7002\r\n",
        n2: b"+OK\r\n+OK\r\n+QUEUED\r\n+QUEUED\r\n-TRYAGAIN Multiple keys request during rehashing of slot\r\n",
        told: "TRYAGAIN Multiple keys request during rehashing of slot, false, n1 MULTI, n1 SET {x}a 1, n1 INCR {x}a, n1 EXEC, n2 ASKING MULTI, n2 SET {x}a 1, n2 INCR {x}a, n2 EXEC",
    },
    // MULTI is refused: the commands ran.
    Row {
        commands: TWO,
        budget: 1,
        n1: b"-NOPERM this user has no permissions to run the 'multi' command\r\n+OK\r\n:2\r\n-ERR EXEC without MULTI\r\n",
        n2: b"",
        told: "NOPERM this user has no permissions to run the 'multi' command, false, n1 MULTI, n1 SET {x}a 1, n1 INCR {x}a, n1 EXEC",
    },
    // MULTI and EXEC are refused: EXECABORT, and one command ran all the same. No redirect is followed.
    Row {
        commands: TWO,
        budget: 1,
        n1: b"-NOPERM this user has no permissions to run the 'multi' command\r\n+OK\r\n-MOVED 16287 n2:7002\r\n-EXECABORT Transaction discarded because of: NOPERM this user has no permissions to run the 'exec' command\r\n",
        n2: b"",
        told: "NOPERM this user has no permissions to run the 'multi' command, true, n1 MULTI, n1 SET {x}a 1, n1 INCR {x}a, n1 EXEC",
    },
    // EXEC alone is refused.
    Row {
        commands: TWO,
        budget: 1,
        n1: b"+OK\r\n+QUEUED\r\n+QUEUED\r\n-EXECABORT Transaction discarded because of: NOPERM this user has no permissions to run the 'exec' command\r\n",
        n2: b"",
        told: "EXECABORT Transaction discarded because of: NOPERM this user has no permissions to run the 'exec' command, false, n1 MULTI, n1 SET {x}a 1, n1 INCR {x}a, n1 EXEC",
    },
    // The reply to EXEC is lost: it may have run.
    Row {
        commands: TWO,
        budget: 1,
        n1: b"+OK\r\n-MOVED 16287 n2:7002\r\n+QUEUED\r\n",
        n2: b"",
        told: "14, false, n1 MULTI, n1 SET {x}a 1, n1 INCR {x}a, n1 EXEC",
    },
    // EXEC is nil: nothing ran.
    Row {
        commands: TWO,
        budget: 1,
        n1: b"+OK\r\n+QUEUED\r\n+QUEUED\r\n*-1\r\n",
        n2: b"",
        told: "Nil, false, n1 MULTI, n1 SET {x}a 1, n1 INCR {x}a, n1 EXEC",
    },
    // A reply to EXEC that is neither.
    Row {
        commands: TWO,
        budget: 1,
        n1: b"+OK\r\n+QUEUED\r\n+QUEUED\r\n+QUEUED\r\n",
        n2: b"",
        told: "16, false, n1 MULTI, n1 SET {x}a 1, n1 INCR {x}a, n1 EXEC",
    },
    // Without budget no redirect is followed.
    Row {
        commands: TWO,
        budget: 0,
        n1: b"+OK\r\n-MOVED 16287 n2:7002\r\n-MOVED 16287 n2:7002\r\n-EXECABORT Transaction discarded because of previous errors.\r\n",
        n2: b"",
        told: "MOVED 16287 n2:7002, true, n1 MULTI, n1 SET {x}a 1, n1 INCR {x}a, n1 EXEC",
    },
    // No link leads to the node that is named.
    Row {
        commands: TWO,
        budget: 1,
        n1: b"+OK\r\n-MOVED 16287 n3:7003\r\n-MOVED 16287 n3:7003\r\n-EXECABORT Transaction discarded because of previous errors.\r\n",
        n2: b"",
        told: "8, true, n1 MULTI, n1 SET {x}a 1, n1 INCR {x}a, n1 EXEC",
    },
    // Another slot.
    Row {
        commands: &["SET {x}a 1", "SET {x}b 1", "GET b"],
        budget: 1,
        n1: b"",
        n2: b"",
        told: "at 2, false",
    },
    // Words that have no place in a transaction.
    Row {
        commands: &["SET {x}a 1", "blpop {x}a 0"],
        budget: 1,
        n1: b"",
        n2: b"",
        told: "at 1, false",
    },
    Row {
        commands: &["WATCH {x}a", "blpop {x}a 0"],
        budget: 1,
        n1: b"",
        n2: b"",
        told: "at 0, false",
    },
    Row {
        commands: &[
            "XREAD COUNT 1 STREAMS {x}s 0",
            "XREAD block 5 STREAMS {x}s 0",
        ],
        budget: 1,
        n1: b"",
        n2: b"",
        told: "at 1, false",
    },
    // No commands.
    Row {
        commands: &[],
        budget: 1,
        n1: b"",
        n2: b"",
        told: "Array([]), false",
    },
];

fn commands_of(alloc: Global, texts: &[&str]) -> Result<Vec<Cmd>, AllocError> {
    let mut commands = Vec::new(alloc);
    for text in texts {
        commands.push(command_of(alloc, text)?)?;
    }
    Ok(commands)
}

fn client_of(alloc: Global, row: &Row) -> Result<Client, RedisError> {
    let mut n1 = Vec::from_slice(alloc, ALL_AT_N1)?;
    n1.extend_from_slice(row.n1)?;
    refreshed(alloc, client_of_two(alloc, &n1, row.n2, row.budget)?)
}

/// An answer, or why there is none: a server's error, a position, or the number of the refusal.
fn told_of(alloc: Global, outcome: Result<Value, RedisError>) -> Result<String, RedisError> {
    let e = match outcome {
        Ok(value) => return Ok(format!(in alloc; "{value:?}")?),
        Err(e) => e,
    };
    if let (Some(code), Some(detail)) = (e.code(), e.detail()) {
        return Ok(format!(in alloc; "{code} {detail}")?);
    }
    if let Some(position) = e.position() {
        return Ok(format!(in alloc; "at {position}")?);
    }
    let number = e.number();
    Ok(format!(in alloc; "{number}")?)
}

/// The host, ASKING where it went before, and the arguments.
fn push_request(text: &mut String, asked: &Asked) -> Result<(), AllocError> {
    text.push_str(", ")?;
    text.push_str(asked.node.host())?;
    if asked.asking {
        text.push_str(" ASKING")?;
    }
    for arg in asked.args.iter() {
        text.push_str(" ")?;
        text.push_str(str::from_utf8(arg.as_slice()).unwrap_or("?"))?;
    }
    Ok(())
}

fn told(alloc: Global, client: &mut Client, row: &Row) -> Result<String, RedisError> {
    let commands = commands_of(alloc, row.commands)?;
    let mut text = told_of(alloc, client.transaction(alloc, &commands))?;
    let flag = client.needs_refresh();
    text.push_str(format!(in alloc; ", {flag}")?.as_str())?;
    for asked in client.asked() {
        push_request(&mut text, asked)?;
    }
    Ok(text)
}

fn plays<R: Abort>(rt: &R, alloc: Global, row: &Row) -> Result<(), Fail> {
    let mut client = client_of(alloc, row)?;
    assert_eq!(rt; told(alloc, &mut client, row)?.as_str(), row.told);
    Ok(())
}

#[test]
fn transactions_are_answered_as_servers_reply(rt: HostRuntime) -> Result<(), Fail> {
    for row in ROWS {
        plays(&rt, rt.alloc(), &row)?;
    }
    Ok(())
}

fn is_no_value(answer: Result<i64, RedisError>) -> bool {
    match answer {
        Ok(_) => false,
        Err(e) => e.number() == 16,
    }
}

/// What EXEC replied is read as the type that the caller asks for: an array is no number, though it was done.
#[test]
fn a_transactions_reply_is_read_as_a_type(rt: HostRuntime) -> Result<(), Fail> {
    let alloc = rt.alloc();
    let mut client = client_of(alloc, &ROWS[0])?;
    let commands = commands_of(alloc, TWO)?;
    assert!(rt; is_no_value(client.transaction(alloc, &commands)));
    assert_eq!(rt; client.asked().len(), 4);
    Ok(())
}

/// What a transaction of two commands is answered where their directions are known.
fn told_by_directions(
    alloc: Global,
    client: &mut Client,
    one: &str,
    other: &str,
) -> Result<String, RedisError> {
    let one = command_of(alloc, one)?;
    let other = command_of(alloc, other)?;
    let mut directions = Vec::new(alloc);
    directions.push(Direction::for_routable(alloc, &one, &[])?)?;
    directions.push(Direction::for_routable(alloc, &other, &[])?)?;
    let mut commands = Vec::new(alloc);
    commands.push(one)?;
    commands.push(other)?;
    told_of(
        alloc,
        client.transaction_directed(alloc, &commands, &directions),
    )
}

/// Commands whose directions are known make the same transaction, and are refused where their slots differ.
#[test]
fn known_directions_are_those_of_a_transaction(rt: HostRuntime) -> Result<(), Fail> {
    let alloc = rt.alloc();
    let mut client = client_of(alloc, &ROWS[0])?;
    assert_eq!(rt;
        told_by_directions(alloc, &mut client, "SET {x}a 1", "INCR {x}a")?.as_str(),
        "Array([Okay, Int(2)])"
    );
    assert_eq!(rt; client.asked().len(), 4);
    assert_eq!(rt;
        told_by_directions(alloc, &mut client, "GET a", "GET b")?.as_str(),
        "at 1"
    );
    Ok(())
}
