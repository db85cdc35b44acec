//! Queues in which some commands were done, some were sent on and some not asked, as the plain rule has them.
use crate::tests::keys::{Fates, OnKeys, Said};
use proxy_core::{Command, Entry, Fate, Limits, Proxy, Room};
use std::alloc::{AllocError, Global};
use std::process::Abort;
use std::test::*;

type Guests = Proxy<OnKeys, Said>;

const LIMITS: Limits = Limits {
    guests: 2,
    share: Room {
        entries: 64,
        bytes: 64,
    },
};

const KEYS: [u64; 5] = [0, 1, 7, 70_000, u64::MAX];

const FATES: [Fate; 6] = [
    Fate::Answered,
    Fate::Redirected,
    Fate::Redirected,
    Fate::NotAsked,
    Fate::Redirected,
    Fate::Lost,
];

/// Numbers that look random, all from the first.
#[derive(Drop)]
struct Numbers {
    state: u64,
}

impl Numbers {
    fn next(&mut self) -> usize {
        self.state = self
            .state
            .wrapping_mul(6_364_136_223_846_793_005)
            .wrapping_add(1_442_695_040_888_963_407);
        (self.state >> 33) as usize
    }
}

/// A queue of which most entries are commands at no key, at one or at several.
fn make_queue(
    alloc: Global,
    numbers: &mut Numbers,
) -> Result<Vec<Entry<OnKeys, Said>>, AllocError> {
    let mut queue = Vec::new(alloc);
    let count = numbers.next() % 24;
    for name in 0..count {
        let name = name as u16;
        if numbers.next() % 8 == 0 {
            queue.push(Entry::Reads(Said { turn: 0, name }))?;
            continue;
        }
        let mut keys = Vec::new(alloc);
        for _ in 0..[1, 1, 2, 1, 3, 0][numbers.next() % 6] {
            keys.push(KEYS[numbers.next() % 5])?;
        }
        queue.push(Entry::Waits(OnKeys { name, keys }))?;
    }
    Ok(queue)
}

/// A fate for each command of a queue.
fn make_fates(
    alloc: Global,
    numbers: &mut Numbers,
    queue: &[Entry<OnKeys, Said>],
) -> Result<Vec<Fate>, AllocError> {
    let mut fates = Vec::new(alloc);
    let kinds = 1 + numbers.next() % 6;
    for entry in queue {
        if matches!(entry, Entry::Waits(_)) {
            fates.push(FATES[numbers.next() % kinds % 6])?;
        }
    }
    Ok(fates)
}

fn may_be_done(fate: Fate) -> bool {
    matches!(fate, Fate::Answered | Fate::Lost)
}

/// Whether a command from a place in the queue on, whose first one has the fate at `next`, overtook this one.
fn is_overtaken(
    command: &OnKeys,
    queue: &[Entry<OnKeys, Said>],
    from: usize,
    fates: &[Fate],
    next: usize,
) -> bool {
    let mut next = next;
    for i in from..queue.len() {
        if let Entry::Waits(later) = &queue[i] {
            let Some(fate) = fates.get(next) else {
                return false;
            };
            if may_be_done(*fate) && command.overlaps(later) {
                return true;
            }
            next = next.saturating_add(1);
        }
    }
    false
}

/// What a guest takes within two turns: of each entry the turn in which its reply came, and its name.
fn add_wanted(
    queue: &[Entry<OnKeys, Said>],
    fates: &[Fate],
    wanted: &mut Vec<(u16, u16)>,
) -> Result<(), AllocError> {
    let mut next: usize = 0;
    for i in 0..queue.len() {
        match &queue[i] {
            Entry::Reads(said) => wanted.push((said.turn, said.name))?,
            Entry::Waits(command) => {
                let fate = fates.get(next).copied().unwrap_or(Fate::Answered);
                next = next.saturating_add(1);
                let is_done = may_be_done(fate) || is_overtaken(command, queue, i + 1, fates, next);
                wanted.push((if is_done { 1 } else { 2 }, command.name))?;
            }
        }
    }
    Ok(())
}

fn put_all(proxy: &mut Guests, guest: usize, queue: Vec<Entry<OnKeys, Said>>) -> usize {
    let mut put: usize = 0;
    for entry in queue {
        put = put.saturating_add(usize::from(proxy.put(guest, entry).is_ok()));
    }
    put
}

fn take_all(
    proxy: &mut Guests,
    guest: usize,
    seen: &mut Vec<(u16, u16)>,
) -> Result<(), AllocError> {
    for _ in 0..64 {
        let Some(said) = proxy.take(guest) else {
            break;
        };
        seen.push((said.turn, said.name))?;
    }
    Ok(())
}

/// Two guests with queues from a number: what they are to take, and what they took.
fn play(alloc: Global, number: u64) -> Result<[Vec<(u16, u16)>; 2], AllocError> {
    let mut numbers = Numbers { state: number };
    let mut proxy: Guests = Proxy::new(alloc, LIMITS);
    let mut fates = Vec::new(alloc);
    let (mut wanted, mut seen) = (Vec::new(alloc), Vec::new(alloc));
    for _ in 0..2 {
        let Ok(guest) = proxy.join(alloc) else {
            return Err(AllocError);
        };
        let queue = make_queue(alloc, &mut numbers)?;
        let own = make_fates(alloc, &mut numbers, &queue)?;
        add_wanted(&queue, &own, &mut wanted)?;
        fates.extend_from_slice(&own)?;
        put_all(&mut proxy, guest, queue);
    }
    let mut servers = Fates { fates, turn: 0 };
    proxy.turn(alloc, &mut servers)?;
    proxy.turn(alloc, &mut servers)?;
    for guest in 0..2 {
        take_all(&mut proxy, guest, &mut seen)?;
    }
    Ok([wanted, seen])
}

#[test]
fn the_overtaken_are_those_of_the_plain_rule(rt: HostRuntime) -> Result<(), Fail> {
    let mut waited: usize = 0;
    for number in 0..400 {
        let [wanted, seen] = play(rt.alloc(), number)?;
        assert!(rt; seen == wanted, "{number}");
        for said in &seen {
            waited = waited.saturating_add(usize::from(said.0 == 2));
        }
    }
    assert!(rt; waited > 1_000, "{waited}");
    Ok(())
}
