//! What guests read of commands with each fate.
use crate::tests::moving::{ERROR, Moving, Reply};
use proxy_core::{Entry, Fate, Limits, Proxy, Room, asks_once, each_sees_its_own, keeps_order};
use proxy_stubs::OnKey;
use std::alloc::Global;
use std::test::*;

pub(crate) type Guests = Proxy<OnKey, Reply>;

/// Three commands of a guest and an answer have room, and no more bytes than these.
pub(crate) const LIMITS: Limits = Limits {
    guests: 2,
    share: Room {
        entries: 4,
        bytes: 31,
    },
};

/// What all guests take, one after the other.
fn take_all(proxy: &mut Guests, seen: &mut Vec<u8>) -> Result<(), Fail> {
    for guest in 0..2 {
        for _ in 0..8 {
            let Some(reply) = proxy.take(guest) else {
                break;
            };
            seen.push(reply.0)?;
        }
    }
    Ok(())
}

/// One guest asks at keys 7, 3 and 7, with an answer in place behind them, and the other at key 9; what
/// both take behind two turns.
fn seen(alloc: Global, fate: Fate, first_only: bool) -> Result<Vec<u8>, Fail> {
    let mut proxy: Guests = Proxy::new(alloc, LIMITS);
    let mut servers = Moving::once_at_seven(fate, first_only);
    let mut refused: u8 = 0;
    for _ in 0..3 {
        refused = refused.saturating_add(u8::from(proxy.join(alloc).is_err()));
    }
    for (guest, key) in [(0, 7), (0, 3), (0, 7), (1, 9)] {
        let put = proxy.put(guest, Entry::Waits(OnKey { key }));
        refused = refused.saturating_add(u8::from(put.is_err()));
    }
    for answer in [100, 101] {
        let put = proxy.put(0, Entry::Reads(Reply(answer)));
        refused = refused.saturating_add(u8::from(put.is_err()));
    }
    let mut seen = Vec::new(alloc);
    seen.push(refused)?;
    for _ in 0..2 {
        proxy.turn(alloc, &mut servers)?;
        take_all(&mut proxy, &mut seen)?;
    }
    Ok(seen)
}

// The fate of the commands at key 7 in the first turn, of the first one alone or of both; that one entry
// was refused, and what was taken in both turns.
const TURNS: [(Fate, bool, &[u8]); 4] = [
    (Fate::Redirected, false, &[2, 9, 7, 3, 7, 100]),
    (Fate::Redirected, true, &[2, ERROR, 3, 7, 100, 9]),
    (Fate::NotAsked, false, &[2, 9, 7, 3, 7, 100]),
    (Fate::Lost, false, &[2, ERROR, 3, ERROR, 100, 9]),
];

#[test]
fn fates_are_told_in_order(rt: HostRuntime) -> Result<(), Fail> {
    for (fate, first_only, wanted) in TURNS {
        let seen = seen(rt.alloc(), fate, first_only)?;
        assert!(rt; seen.as_slice() == wanted, "{fate:?} {first_only}");
    }
    Ok(())
}

#[test]
fn laws_are_there(rt: HostRuntime) {
    each_sees_its_own::<OnKey, Reply, Moving>();
    asks_once::<OnKey, Reply>();
    keeps_order::<OnKey, Reply>();
    assert_eq!(rt; ERROR, 255);
}
