//! One request for memory is refused, whichever: `tools/refused-tests` plays each test once for each.
use crate::tests::bytes::{READ, Scene};
use crate::tests::pieces::are_right_or_errors;
use refusals_for_tests::again;
use std::test::*;

#[test]
fn whichever_request_is_refused_no_reply_is_wrong(rt: HostRuntime) -> Result<(), Fail> {
    let alloc = rt.alloc();
    let mut scene = again(&rt, "Scene::new", || Scene::new(alloc, [8, 9]))?;
    let mut was_refused = false;
    for turn in 1..11 {
        if scene.turn(alloc, 40, turn == 10).is_err() {
            println!(rt; "refused turn")?;
            was_refused = true;
            scene.turn(alloc, 40, false)?;
        }
    }
    assert!(rt; are_right_or_errors(scene.read(false), READ[0]));
    assert!(rt; are_right_or_errors(scene.read(true), READ[1]));
    if !was_refused && (scene.read(false) != READ[0] || scene.read(true) != READ[1]) {
        println!(rt; "refused reply")?;
    }
    Ok(())
}
