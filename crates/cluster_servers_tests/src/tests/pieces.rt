//! What guests read in whichever pieces their bytes come, and where nodes fail at each place.
use crate::tests::bytes::{READ, Scene};
use cluster_client::RedisError;
use std::alloc::Global;
use std::test::*;

/// So many turns, of which the last one lets nothing wait.
const TURNS: usize = 60;

/// The guests at the end, where they send so many bytes a turn.
fn played(alloc: Global, size: usize, counts: [usize; 2]) -> Result<Scene, RedisError> {
    let mut scene = Scene::new(alloc, counts)?;
    for turn in 1..TURNS + 1 {
        scene.turn(alloc, size, turn == TURNS)?;
    }
    Ok(scene)
}

#[test]
fn in_any_pieces_guests_read_the_same(rt: HostRuntime) -> Result<(), Fail> {
    for size in 1..50 {
        let scene = played(rt.alloc(), size, [8, 9])?;
        assert_eq!(rt; scene.read(false), READ[0]);
        assert_eq!(rt; scene.read(true), READ[1]);
    }
    Ok(())
}

/// Whether these are as many lines, each the same or an error.
pub(crate) fn are_right_or_errors(read: &[u8], wanted: &[u8]) -> bool {
    let mut lines = wanted.split(|byte| *byte == b'\n');
    for line in read.split(|byte| *byte == b'\n') {
        match lines.next() {
            Some(right) if line == right || line.first() == Some(&b'-') => {}
            _ => return false,
        }
    }
    lines.next().is_none()
}

#[test]
fn a_node_that_fails_costs_errors_and_no_reply(rt: HostRuntime) -> Result<(), Fail> {
    for place in 0..9 {
        for counts in [[place, 9], [8, place], [place, place]] {
            let scene = played(rt.alloc(), 7, counts)?;
            assert!(rt; are_right_or_errors(scene.read(false), READ[0]));
            assert!(rt; are_right_or_errors(scene.read(true), READ[1]));
        }
    }
    Ok(())
}
