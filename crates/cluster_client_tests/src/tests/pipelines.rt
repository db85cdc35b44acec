//! Pipelines over two nodes.
use clients_for_tests::*;
use cluster_client::*;
use std::alloc::{AllocError, Global};
use std::test::Fail;

/// The first half of the slots at n1:7001, where `b` is, and the other one at n2:7002, where `a` is;
/// then the replies to `SET b 1` and `GET b`.
const HALVES_AND_REPLIES: &[u8] =
    b"*2\r\n*3\r\n:0\r\n:8191\r\n*2\r\n$2\r\nn1\r\n:7001\r\n*3\r\n:8192\r\n:16383\r\n*2\r\n$2\r\nn2\r\n:7002\r\n+OK\r\n$1\r\n1\r\n";

/// The same slots, then an error.
const HALVES_AND_AN_ERROR: &[u8] =
    b"*2\r\n*3\r\n:0\r\n:8191\r\n*2\r\n$2\r\nn1\r\n:7001\r\n*3\r\n:8192\r\n:16383\r\n*2\r\n$2\r\nn2\r\n:7002\r\n-ERR x\r\n";

/// `GET a`, `SET b 1` ignored, `GET b`.
fn pipeline(alloc: Global) -> Result<ClusterPipeline, AllocError> {
    let mut pipeline = ClusterPipeline::with_capacity(alloc, 3)?;
    pipeline.add_command(get_a(alloc)?)?;
    pipeline.cmd(alloc, "SET")?;
    pipeline.arg("b")?;
    pipeline.arg(1)?;
    pipeline.ignore();
    pipeline.cmd(alloc, "GET")?;
    pipeline.arg("b")?;
    Ok(pipeline)
}

#[test]
fn a_pipeline_answers_in_its_order(rt: HostRuntime) -> Result<(), Fail> {
    let alloc = rt.alloc();
    let mut client = refreshed_of_two(alloc, HALVES_AND_REPLIES, b"$1\r\n5\r\n")?;
    let pipeline = pipeline(alloc)?;
    assert_eq!(rt; pipeline.commands().len(), 3);
    let answer: Vec<i64> = pipeline.query(alloc, &mut client)?;
    assert_eq!(rt; answer.as_slice(), [5, 1].as_slice());
    assert!(rt; has_sent(alloc, &client, "n2:7002", b"*2\r\n$3\r\nGET\r\n$1\r\na\r\n")?);
    assert_eq!(rt; client.asked().len(), 3);
    Ok(())
}

/// `GET b` ignored, then a command of one word.
fn refused_pipeline(alloc: Global, word: &str) -> Result<ClusterPipeline, AllocError> {
    let mut pipeline = cluster_pipe(alloc);
    pipeline.cmd(alloc, "GET")?;
    pipeline.arg("b")?;
    pipeline.ignore();
    pipeline.cmd(alloc, word)?;
    Ok(pipeline)
}

/// The position that the refusal of a pipeline tells.
fn refused_position(
    alloc: Global,
    client: &mut Client,
    pipeline: &ClusterPipeline,
) -> Option<usize> {
    let outcome: Result<Vec<i64>, RedisError> = pipeline.query(alloc, client);
    match outcome {
        Ok(_) => None,
        Err(e) => e.position(),
    }
}

#[test]
fn a_refused_pipeline_tells_the_position(rt: HostRuntime) -> Result<(), Fail> {
    let alloc = rt.alloc();
    let mut client = refreshed_of_two(alloc, HALVES_AND_REPLIES, b"$1\r\n5\r\n")?;
    let pipeline = refused_pipeline(alloc, "TIME")?;
    assert_eq!(rt; refused_position(alloc, &mut client, &pipeline), Some(1));
    assert_eq!(rt; client.asked().len(), 0);
    Ok(())
}

/// `SET a 1`, `GET b` ignored, `GET a`.
fn three_commands(alloc: Global) -> Result<ClusterPipeline, AllocError> {
    let mut pipeline = cluster_pipe(alloc);
    pipeline.cmd(alloc, "SET")?;
    pipeline.arg("a")?;
    pipeline.arg(1)?;
    pipeline.cmd(alloc, "GET")?;
    pipeline.arg("b")?;
    pipeline.ignore();
    pipeline.add_command(get_a(alloc)?)?;
    Ok(pipeline)
}

/// The positions of the errors that refuse a pipeline, none where no server refused it.
fn positions_of_errors(
    alloc: Global,
    client: &mut Client,
    pipeline: &ClusterPipeline,
) -> Result<Vec<usize>, AllocError> {
    let outcome: Result<Vec<i64>, RedisError> = pipeline.query(alloc, client);
    let mut positions = Vec::new(alloc);
    if let Err(e) = outcome {
        for (position, _) in e.into_server_errors(alloc)? {
            positions.push(position)?;
        }
    }
    Ok(positions)
}

#[test]
fn all_errors_of_a_pipeline_tell_their_positions(rt: HostRuntime) -> Result<(), Fail> {
    let alloc = rt.alloc();
    let replies = b"+OK\r\n-MOVED 15495 n1:7001\r\n";
    let mut client = refreshed_of_two(alloc, HALVES_AND_AN_ERROR, replies)?;
    let positions = positions_of_errors(alloc, &mut client, &three_commands(alloc)?)?;
    assert_eq!(rt; positions.as_slice(), [1, 2].as_slice());
    assert!(rt; client.needs_refresh());
    Ok(())
}

#[test]
fn a_moved_before_an_early_end_raises_no_flag(rt: HostRuntime) -> Result<(), Fail> {
    let alloc = rt.alloc();
    let mut client = refreshed_of_two(alloc, HALVES_AND_REPLIES, b"-MOVED 15495 n1:7001\r\n")?;
    let mut pipeline = cluster_pipe(alloc);
    pipeline.add_command(get_a(alloc)?)?;
    pipeline.add_command(get_a(alloc)?)?;
    assert_eq!(rt;
        positions_of_errors(alloc, &mut client, &pipeline)?.len(),
        0
    );
    assert!(rt; !client.needs_refresh());
    assert_eq!(rt; client.link_state(&node(alloc, "n2:7002")?), Some(false));
    Ok(())
}
