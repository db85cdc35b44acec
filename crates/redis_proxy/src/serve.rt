//! The program's loop: input, turns of the cluster, output.
use crate::cluster::Cluster;
use crate::ids::Ids;
use crate::session::Session;
use crate::side::Side;
use crate::waits::Waits;
use crate::words::{SharedWords, Words, are_none, learn_all};
use anyhow::Result;
use node_files::{Link, Peer, listed, relink};
use resp_core::Protocol;
use std::alloc::Global;
use std::cell::RefCell;
use std::env::{self, Args};
use std::io;
use std::io::{Read, Write};
use std::rc::Rc;
use std::rt::{Clock, Env, Files};
use std::time::{Duration, Instant};

// How many bytes one read takes at most.
const PIECE: usize = 65536;

// How often what waits is asked, the last time without patience.
const TURNS: u8 = 8;

/// A slot map is learnt anew once it is so many milliseconds old, also where nothing tells that it is out of date.
const OLDEST: u64 = 3000;

/// Sees to it that the links of a side are open and its slot map is known, if a guest speaks its protocol. A map that is in
/// doubt is learnt anew. Whether the map was asked for.
fn restore<R: Files + Clock + AllocGlobal>(
    rt: &R,
    folder: &str,
    peers: &mut Vec<Peer>,
    side: &mut Side<Link<R::File>>,
) -> Result<bool> {
    if !side.is_used {
        return Ok(false);
    }
    let client = &mut side.servers.client;
    let has_opened = relink(rt, folder, peers, client, Some(&side.greeting))?;
    let wants_map = client.needs_refresh();
    let now = Instant::now(rt)?;
    let oldest = Duration::from_millis(OLDEST);
    let is_old = side.learning.is_due(now) || side.learning.is_older(now, oldest);
    let is_wanted = has_opened || wants_map || is_old;
    if is_wanted {
        side.learning.note(now);
        side.refresh(rt.alloc(), peers);
    }
    Ok(is_wanted)
}

/// Sees to it that both sides have links and slot map, and that the words are known that the nodes know.
fn restore_all<R: Files + Clock + AllocGlobal>(
    rt: &R,
    folder: &str,
    session: &mut Session<Link<R::File>>,
) -> Result<()> {
    let Session { cluster, peers, .. } = session;
    let was_asked = restore(rt, folder, peers, &mut cluster.two)?;
    restore(rt, folder, peers, &mut cluster.three)?;
    if was_asked && are_none(&cluster.words) {
        // Where no node tells them, they are asked for again with the next map.
        let _told = learn_all(rt.alloc(), &mut cluster.two.servers.client, &cluster.words);
    }
    Ok(())
}

/// Asks what waits of all guests, over the links that can be had.
fn turn<R: Files + Clock + AllocGlobal>(
    rt: &R,
    folder: &str,
    session: &mut Session<Link<R::File>>,
    is_patient: bool,
) -> Result<()> {
    restore_all(rt, folder, session)?;
    let Session { cluster, .. } = session;
    cluster.two.servers.patient = is_patient;
    cluster.three.servers.patient = is_patient;
    session.frontend.turn(rt.alloc(), &mut session.cluster)?;
    Ok(())
}

/// Asks what waits until all is answered but what waits for more than its turn, `TURNS` times at most; whether
/// something else waits still.
fn settle<R: Files + Clock + AllocGlobal>(
    rt: &R,
    folder: &str,
    session: &mut Session<Link<R::File>>,
) -> Result<bool> {
    for number in 0..TURNS {
        if !session.read_for_all()? {
            return Ok(false);
        }
        let is_patient = number.saturating_add(1) < TURNS;
        turn(rt, folder, session, is_patient)?;
        if session.cluster.is_settled {
            session.read_for_all()?;
            return Ok(false);
        }
    }
    session.read_for_all()
}

/// Answers all that the guests asked.
fn answer<R: Files + Clock + AllocGlobal>(
    rt: &R,
    folder: &str,
    session: &mut Session<Link<R::File>>,
) -> Result<()> {
    for _ in 0..u64::MAX {
        let has_moved = session.advance_all(rt.alloc())?;
        let waits = settle(rt, folder, session)?;
        if !has_moved && !waits {
            break;
        }
    }
    session.send_all(rt.alloc())?;
    session.say_ready()?;
    Ok(session.set_alarm()?)
}

fn flush<R: Print>(rt: &R, output: &mut Vec<u8>) -> io::Result<()> {
    io::writer(rt).write_all(output)?;
    output.clear();
    Ok(())
}

/// A session with the nodes of a folder.
fn session_of<R: Files + AllocGlobal>(
    rt: &R,
    folder: &str,
    ids: Ids,
    is_framed: bool,
) -> Result<Session<Link<R::File>>> {
    let alloc = rt.alloc();
    let mut two = Side::new(alloc, Protocol::Resp2)?;
    two.is_used = true;
    let three = Side::new(alloc, Protocol::Resp3)?;
    let words: SharedWords = Rc::new(alloc, RefCell::new(Words::new(alloc)))?;
    let cluster = Cluster {
        two,
        three,
        waits: Waits::new(alloc),
        words,
        alone: 0,
        is_settled: true,
    };
    let peers = listed(rt, folder)?;
    Ok(Session::new(alloc, cluster, peers, ids, is_framed))
}

/// A number among the arguments; another where there is none.
fn number_in(args: &mut Args<Global>, other: u32) -> u32 {
    match args.next() {
        Some(word) => word.parse::<u32>().unwrap_or(other),
        None => other,
    }
}

/// Sees to links and slot map, answers all that the guests asked, and writes it.
fn answer_all<R: Files + Clock + Print + AllocGlobal>(
    rt: &R,
    folder: &str,
    session: &mut Session<Link<R::File>>,
) -> Result<()> {
    restore_all(rt, folder, session)?;
    answer(rt, folder, session)?;
    flush(rt, &mut session.output)?;
    Ok(())
}

/// Takes the guests' bytes until they end.
fn take_all<R: Files + Clock + Input + Print + AllocGlobal>(
    rt: &R,
    folder: &str,
    session: &mut Session<Link<R::File>>,
) -> Result<()> {
    let alloc = rt.alloc();
    let mut input = rt.reader();
    let mut piece = Vec::from_elem(alloc, 0u8, PIECE)?;
    for _ in 0..u64::MAX {
        let count = input.read(&mut piece)?;
        if count == 0 {
            break;
        }
        if let Some(bytes) = piece.get(..count) {
            session.take(alloc, bytes)?;
        }
        answer_all(rt, folder, session)?;
        if session.has_ended() {
            break;
        }
    }
    Ok(())
}

/// Serves the guests whose bytes come from the standard input.
pub(crate) fn serve<R: Files + Clock + Env + Input + Print + AllocGlobal>(rt: &R) -> Result<()> {
    let mut args = env::args(rt)?;
    let _program = args.next();
    let Some(folder) = args.next() else {
        println!(rt; "redis_proxy FOLDER [--frames [NUMBER PROGRAMS]]")?;
        return Ok(());
    };
    let folder = folder.as_str();
    let is_framed = args.next().is_some();
    let ids = Ids::new(number_in(&mut args, 0), number_in(&mut args, 1));
    let mut session = session_of(rt, folder, ids, is_framed)?;
    answer_all(rt, folder, &mut session)?;
    take_all(rt, folder, &mut session)
}
