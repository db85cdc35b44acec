//! Guests whose bytes come in pieces, those of one between those of another.
use proxy_connection::Progress;
use proxy_core::{JoinRefusal, Limits, Room};
use proxy_frontend::{Answer, Call, Frontend, each_reads_its_own};
use proxy_stubs::{Moving, OnKey, Talk};
use std::alloc::{AllocError, Global};
use std::collections::VecDeque;
use std::process::Abort;
use std::test::*;

pub(crate) type Front = Frontend<Talk, OnKey, Vec<u8>>;

/// A frontend of two guests, with room for three entries of each.
pub(crate) fn of_two(alloc: Global) -> Front {
    let share = Room {
        entries: 3,
        bytes: 100,
    };
    Frontend::new(
        alloc,
        Limits { guests: 2, share },
        resp_requests::Limits::of_redis(),
    )
}

/// A frontend of two guests, who have both joined.
fn joined_by_two<R: Abort>(rt: &R, alloc: Global) -> Front {
    let mut front = of_two(alloc);
    assert_eq!(rt; front.join(alloc, Talk::new()), Ok(0));
    assert_eq!(rt; front.join(alloc, Talk::new()), Ok(1));
    front
}

/// Takes what a guest asked, as far as there is room.
fn take_in(alloc: Global, front: &mut Front, guest: usize) -> Result<Progress, AllocError> {
    for _ in 0..1000 {
        match front.advance(alloc, guest)? {
            Progress::Taken => {}
            other => return Ok(other),
        }
    }
    Ok(Progress::Taken)
}

/// All that is there to write.
fn written(alloc: Global, front: &mut Front, guest: usize) -> Result<Vec<u8>, AllocError> {
    let mut out = Vec::new(alloc);
    for _ in 0..1000 {
        if !front.write(guest, &mut out)? {
            break;
        }
    }
    Ok(out)
}

/// What there is to write to a guest is this.
fn reads<R: Abort>(
    rt: &R,
    alloc: Global,
    front: &mut Front,
    guest: usize,
    wanted: &[u8],
) -> Result<(), Fail> {
    assert_eq!(rt; written(alloc, front, guest)?.as_slice(), wanted);
    Ok(())
}

#[test]
fn each_guest_reads_its_own(rt: HostRuntime) -> Result<(), Fail> {
    let alloc = rt.alloc();
    let mut front = joined_by_two(&rt, alloc);
    assert_eq!(rt; front.join(alloc, Talk::new()), Err(JoinRefusal::Full));
    for (guest, piece) in [
        (0, b"*2\r\n$3\r\nGE".as_slice()),
        (1, b"PI".as_slice()),
        (0, b"T\r\n$1\r\na\r\nPIN".as_slice()),
        (1, b"NG\r\nGET m\r\nQUIT\r\nGET c\r\n".as_slice()),
        (0, b"G\r\n".as_slice()),
        (2, b"PING\r\n".as_slice()),
    ] {
        front.hear(guest, piece)?;
        take_in(alloc, &mut front, guest)?;
    }
    let mut servers = Moving::new();
    front.turn(alloc, &mut servers)?;
    reads(&rt, alloc, &mut front, 1, b"+PONG\r\n")?;
    reads(&rt, alloc, &mut front, 0, b"+a\r\n+PONG\r\n")?;
    assert_eq!(rt; front.held(1), 2);
    front.turn(alloc, &mut servers)?;
    reads(&rt, alloc, &mut front, 1, b"+m\r\n+OK\r\n")?;
    assert!(rt; front.is_over(1));
    assert!(rt; !front.is_over(0));
    assert_eq!(rt; written(alloc, &mut front, 2)?.len(), 0);
    assert_eq!(rt; take_in(alloc, &mut front, 2)?, Progress::NoGuest);
    Ok(())
}

#[test]
fn who_takes_a_number_again_reads_nothing_of_the_one_before(rt: HostRuntime) -> Result<(), Fail> {
    let alloc = rt.alloc();
    let mut front = joined_by_two(&rt, alloc);
    front.hear(0, b"GET a\r\nPING\r\nGET b\r\nGET")?;
    front.hear(1, b"GET c\r\n")?;
    assert_eq!(rt; take_in(alloc, &mut front, 0)?, Progress::Short);
    assert_eq!(rt; take_in(alloc, &mut front, 1)?, Progress::Short);
    let mut servers = Moving::new();
    front.turn(alloc, &mut servers)?;
    let mut out = Vec::new(alloc);
    assert!(rt; front.write(0, &mut out)?);
    front.leave(alloc, 0);
    assert_eq!(rt; take_in(alloc, &mut front, 0)?, Progress::NoGuest);
    assert!(rt; front.translator(0).is_none());
    assert_eq!(rt; front.join(alloc, Talk::new()), Ok(0));
    assert!(rt; front.translator(0).is_some());
    front.hear(0, b" d\r\nQUIT\r\n")?;
    assert_eq!(rt; take_in(alloc, &mut front, 0)?, Progress::Ended);
    reads(&rt, alloc, &mut front, 0, b"+PONG\r\n+OK\r\n")?;
    reads(&rt, alloc, &mut front, 1, b"+c\r\n")?;
    Ok(())
}

#[test]
fn a_run_answers_each_call(rt: HostRuntime) -> Result<(), Fail> {
    let alloc = rt.alloc();
    let mut front = of_two(alloc);
    let mut calls = VecDeque::new(alloc);
    calls.push_back(Call::Join(Talk::new()))?;
    calls.push_back(Call::Hear(0, Vec::from_slice(alloc, b"GET a\r\n")?))?;
    calls.push_back(Call::Advance(0))?;
    calls.push_back(Call::Write(0))?;
    calls.push_back(Call::Turn)?;
    calls.push_back(Call::Write(0))?;
    calls.push_back(Call::Leave(0))?;
    let mut answers = Vec::new(alloc);
    front.play(alloc, &mut Moving::new(), &mut calls, &mut answers)?;
    assert!(rt; calls.is_empty());
    assert_eq!(rt; answers.len(), 7);
    assert!(rt; matches!(answers[0], Answer::Joined(0)));
    assert!(rt; matches!(answers[1], Answer::Heard));
    assert!(rt; matches!(answers[2], Answer::Advanced(Progress::Taken)));
    assert!(rt; matches!(answers[3], Answer::WroteNothing));
    assert!(rt; matches!(answers[4], Answer::Turned));
    assert!(rt;
        matches!(&answers[5], Answer::Wrote(bytes) if bytes.as_slice() == b"+a\r\n".as_slice())
    );
    assert!(rt; matches!(answers[6], Answer::Left));
    each_reads_its_own::<Talk, OnKey, Vec<u8>, Moving>();
    Ok(())
}
