//! One request for memory is refused, whichever: `tools/refused-tests` plays each test once for each.
use crate::tests::guests::{Front, of_two};
use proxy_stubs::{Moving, Talk, take_in};
use refusals_for_tests::again;
use std::io::Print;
use std::process::Abort;
use std::test::*;

fn write_out<R: Print>(
    rt: &R,
    front: &mut Front,
    guest: usize,
    out: &mut Vec<u8>,
) -> Result<(), Fail> {
    for _ in 0..9 {
        match front.write(guest, out) {
            Ok(true) => {}
            Ok(false) => break,
            Err(_) => println!(rt; "refused write")?,
        }
    }
    Ok(())
}

#[test]
fn each_guest_reads_the_same_whichever_request_is_refused(rt: HostRuntime) -> Result<(), Fail> {
    let alloc = rt.alloc();
    let mut front = of_two(alloc);
    let first = again(&rt, "join", || front.join(alloc, Talk::new()))?;
    let second = again(&rt, "join", || front.join(alloc, Talk::new()))?;
    for (guest, piece) in [
        (first, b"GET a\r\n*1\r\n$4\r\nPI".as_slice()),
        (second, b"GET b\r\nQUIT\r\n".as_slice()),
        (first, b"NG\r\n*x\r\n".as_slice()),
    ] {
        again(&rt, "hear", || front.hear(guest, piece))?;
        take_in(&rt, || front.advance(alloc, guest))?;
    }
    let mut servers = Moving::new();
    again(&rt, "turn", || front.turn(alloc, &mut servers))?;
    let (mut to_first, mut to_second) = (Vec::new(alloc), Vec::new(alloc));
    write_out(&rt, &mut front, second, &mut to_second)?;
    write_out(&rt, &mut front, first, &mut to_first)?;
    assert_eq!(rt;
        to_first.as_slice(),
        b"+a\r\n+PONG\r\n-ERR Protocol error: invalid multibulk length\r\n".as_slice()
    );
    assert_eq!(rt; to_second.as_slice(), b"+b\r\n+OK\r\n".as_slice());
    assert!(rt; front.is_over(first));
    assert!(rt; front.is_over(second));
    Ok(())
}
