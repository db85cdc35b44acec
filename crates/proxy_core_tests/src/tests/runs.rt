//! A list of calls, and what each answers.
use crate::tests::moving::{Moving, Reply};
use crate::tests::turns::{Guests, LIMITS};
use proxy_core::{Answer, Call, Entry, JoinRefusal, Proxy, Refusal};
use proxy_stubs::OnKey;
use std::alloc::{AllocError, Global};
use std::collections::VecDeque;
use std::test::*;

fn asks(guest: usize, key: u8) -> Call<OnKey, Reply> {
    Call::Put(guest, Entry::Waits(OnKey { key }))
}

/// Guest 0 does not read, and is ended; its number is used again.
fn calls(alloc: Global) -> Result<VecDeque<Call<OnKey, Reply>>, AllocError> {
    let calls = Vec::from_array(
        alloc,
        [
            Call::Join,
            Call::Join,
            Call::Join,
            asks(0, 1),
            asks(0, 2),
            asks(0, 3),
            asks(0, 4),
            asks(1, 5),
            Call::Take(1),
            Call::Turn,
            Call::Take(1),
            Call::Leave(0),
            asks(0, 6),
            Call::Join,
            Call::Take(0),
            asks(0, 7),
            Call::Turn,
            Call::Take(0),
        ],
    )?;
    Ok(VecDeque::from_vec(calls))
}

/// A reply as itself, and each other answer as a word.
fn shown(alloc: Global, answer: &Answer<OnKey, Reply>) -> Result<String, AllocError> {
    match answer {
        Answer::Joined(guest) => format!(in alloc; "joined {guest}"),
        Answer::NotJoined(JoinRefusal::Full) => String::from_str(alloc, "no number"),
        Answer::NotJoined(JoinRefusal::NoMemory) | Answer::NoMemory => {
            String::from_str(alloc, "no memory")
        }
        Answer::Put => String::from_str(alloc, "put"),
        Answer::Refused(refused) => match refused.why {
            Refusal::NoGuest => String::from_str(alloc, "no guest"),
            Refusal::Full => String::from_str(alloc, "full"),
            Refusal::NoMemory => String::from_str(alloc, "no memory"),
        },
        Answer::Took(reply) => format!(in alloc; "took {}", reply.0),
        Answer::Nothing => String::from_str(alloc, "nothing"),
        Answer::Left => String::from_str(alloc, "left"),
        Answer::Turned => String::from_str(alloc, "turned"),
    }
}

fn all_shown(alloc: Global, answers: &[Answer<OnKey, Reply>]) -> Result<String, AllocError> {
    let mut text = String::new(alloc);
    for answer in answers {
        text.push_str(&shown(alloc, answer)?)?;
        text.push_str("; ")?;
    }
    Ok(text)
}

const SHOWN: &str =
    "joined 0; joined 1; no number; put; put; put; full; put; nothing; turned; took 5; left; \
no guest; joined 0; nothing; put; turned; took 7; ";

#[test]
fn a_guest_that_does_not_read_costs_no_other(rt: HostRuntime) -> Result<(), Fail> {
    let alloc = rt.alloc();
    let mut proxy: Guests = Proxy::new(alloc, LIMITS);
    let mut servers = Moving::answering();
    let mut calls = calls(alloc)?;
    let mut answers = Vec::new(alloc);
    proxy.play(alloc, &mut servers, &mut calls, &mut answers)?;
    let text = all_shown(alloc, &answers)?;
    assert_eq!(rt; text.as_str(), SHOWN);
    Ok(())
}
