//! The cluster as the servers of all guests.
use crate::ask::{Ask, How};
use crate::held::{Around, ask_alone};
use crate::side::Side;
use crate::unblock::unblock;
use crate::waits::Waits;
use crate::way::Way;
use crate::words::SharedWords;
use cluster_client::PipelinedLink;
use cluster_servers::{GuestCommand, Reply};
use proxy_connection::Written;
use proxy_core::{Command, Fate, Outcome, Servers, Waiting};
use resp_core::{Protocol, WriteError};
use std::alloc::{AllocError, Global};
use std::collections::VecDeque;

/// The cluster, by a client for each protocol.
#[derive(Drop)]
pub(crate) struct Cluster<L> {
    pub(crate) two: Side<L>,
    pub(crate) three: Side<L>,
    pub(crate) waits: Waits,
    /// The words that the nodes know.
    pub(crate) words: SharedWords,
    /// How many commands were asked by themselves, for what goes to the nodes in turn.
    pub(crate) alone: usize,
    /// Whether the last turn left nothing but commands that wait for what is not there yet, and what stands
    /// behind these.
    pub(crate) is_settled: bool,
}

/// When a command of a batch is asked.
#[derive(Clone, Copy)]
enum Time {
    /// In a pipeline of its protocol.
    Together(Protocol),
    /// By itself, behind these.
    Alone,
    /// By itself, behind all others, until there is something to take.
    Waits,
    /// In another turn, since it goes alone, or behind one that does, or in another protocol than those before.
    Later,
}

/// Outcomes of a batch, by the time at which each was asked.
#[derive(Drop)]
struct Told {
    two: VecDeque<Outcome<Reply>>,
    three: VecDeque<Outcome<Reply>>,
    alone: VecDeque<Outcome<Reply>>,
}

/// When each command of a batch is asked, in which those of a guest stand together. Those of a guest that go
/// together speak one protocol, since the two clients are asked one after the other.
fn times_of(alloc: Global, batch: &[Waiting<'_, Ask>]) -> Result<Vec<Time>, AllocError> {
    let mut times = Vec::with_capacity(alloc, batch.len())?;
    // The guest, and the protocol of its first command here.
    let mut first = None;
    let mut is_barred = false;
    for asked in batch {
        let ask = asked.command;
        let (is_first, protocol) = match first {
            Some((guest, protocol)) if guest == asked.guest => (false, protocol),
            _ => (true, ask.protocol),
        };
        first = Some((asked.guest, protocol));
        let is_alone = !matches!(ask.how, How::Together);
        let waits = ask.protocol != protocol || is_alone && !is_first || is_barred && !is_first;
        times.push(if waits {
            Time::Later
        } else if matches!(ask.how, How::Wait(..)) {
            Time::Waits
        } else if is_alone {
            Time::Alone
        } else {
            Time::Together(protocol)
        })?;
        is_barred = is_alone || waits;
    }
    Ok(times)
}

/// The commands of a batch that go out together to links of a protocol.
fn part_of<'a>(
    alloc: Global,
    batch: &[Waiting<'a, Ask>],
    times: &[Time],
    protocol: Protocol,
) -> Result<Vec<Waiting<'a, GuestCommand>>, AllocError> {
    let mut part = Vec::new(alloc);
    for (asked, time) in batch.iter().zip(times.iter()) {
        if matches!(time, Time::Together(of) if *of == protocol) {
            part.push(Waiting {
                guest: asked.guest,
                command: &asked.command.command,
            })?;
        }
    }
    Ok(part)
}

/// What begins a line where no node or no link was there, a link failed, or a node told that it is a replica or that the
/// cluster is down.
const DOUBTS: [&str; 4] = [
    "-READONLY ",
    "-CLUSTERDOWN ",
    "-TRYAGAIN not sent",
    "-ERR the link to the node failed",
];

/// Whether a new slot map, or a new link, may mend an outcome.
fn is_doubtful(outcome: &Outcome<Reply>) -> bool {
    if matches!(outcome.fate, Fate::NotAsked | Fate::Lost) {
        return true;
    }
    let told = outcome.reply.written();
    if told.first() != Some(&b'-') {
        return false;
    }
    for start in &DOUBTS {
        if told.starts_with(start.as_bytes()) {
            return true;
        }
    }
    false
}

/// That of a command for which nothing was sent.
fn not_asked() -> Outcome<Reply> {
    Outcome {
        fate: Fate::NotAsked,
        reply: Reply::Unwritten(WriteError::Memory),
    }
}

impl<L: PipelinedLink + Drop> Side<L> {
    /// The outcomes of a part; none where there is nothing to ask.
    fn ask(
        &mut self,
        alloc: Global,
        part: &[Waiting<'_, GuestCommand>],
    ) -> Result<VecDeque<Outcome<Reply>>, AllocError> {
        if part.is_empty() {
            return Ok(VecDeque::new(alloc));
        }
        let outcomes = self.servers.ask(alloc, part)?;
        self.hear_of(&outcomes);
        Ok(VecDeque::from_vec(outcomes))
    }
}

impl<L> Side<L> {
    /// Takes note where one of the outcomes is what a new map may mend.
    fn hear_of(&mut self, outcomes: &[Outcome<Reply>]) {
        for outcome in outcomes {
            if is_doubtful(outcome) {
                self.learning.doubt();
            }
        }
    }
}

impl<L> Cluster<L> {
    /// Whether a slot map is in doubt that guests' commands go by.
    pub(crate) fn is_in_doubt(&self) -> bool {
        self.two.learning.is_in_doubt() || self.three.learning.is_in_doubt()
    }
}

impl<L: PipelinedLink + Drop> Cluster<L> {
    /// Asks each that is asked by itself.
    fn ask_each_alone(
        &mut self,
        alloc: Global,
        batch: &[Waiting<'_, Ask>],
        times: &[Time],
        alone: &mut VecDeque<Outcome<Reply>>,
    ) {
        for (asked, time) in batch.iter().zip(times.iter()) {
            if !matches!(time, Time::Alone) {
                continue;
            }
            let outcome = match &asked.command.how {
                How::Alone(Way::Unblock) => {
                    unblock(alloc, &mut self.waits, asked.command.command.command())
                }
                _ => self.ask_alone(alloc, asked.command),
            };
            let _full = alone.push_back(outcome);
        }
    }

    /// Asks a command by itself.
    fn ask_alone(&mut self, alloc: Global, ask: &Ask) -> Outcome<Reply> {
        let Cluster {
            two,
            three,
            waits,
            words,
            alone,
            ..
        } = self;
        let around = Around {
            waiting: waits.count(),
            number: *alone,
            words,
        };
        *alone = alone.wrapping_add(1);
        let side = match ask.protocol {
            Protocol::Resp2 => two,
            Protocol::Resp3 => three,
        };
        let outcome = ask_alone(alloc, &mut side.servers.client, ask, around);
        if is_doubtful(&outcome) {
            side.learning.doubt();
        }
        outcome
    }

    /// Takes note of those that wait: those that are new are tried, and behind the others of the batch also
    /// those for which one of these may have put something there.
    fn note_waits(
        &mut self,
        alloc: Global,
        batch: &[Waiting<'_, Ask>],
        times: &[Time],
        is_behind: bool,
    ) {
        for (asked, time) in batch.iter().zip(times.iter()) {
            if matches!(time, Time::Waits)
                && let How::Wait(block, id) = &asked.command.how
            {
                let is_touched = is_behind && touches(batch, times, asked.command);
                let protocol = asked.command.protocol;
                let guest = asked.guest;
                // Without memory it is noted in another turn.
                let _noted = self
                    .waits
                    .note(alloc, guest, *id, protocol, block, is_touched);
            }
        }
    }

    /// Tries those that are to be tried.
    fn try_waits(&mut self, alloc: Global) {
        let Cluster {
            two,
            three,
            waits,
            ..
        } = self;
        waits.try_all(alloc, two, three);
    }

    /// Puts the outcomes of all behind one another, as the batch stands.
    fn tell_all(
        &mut self,
        batch: &[Waiting<'_, Ask>],
        times: &[Time],
        mut told: Told,
        outcomes: &mut Vec<Outcome<Reply>>,
    ) {
        self.is_settled = true;
        let mut waiting = None;
        for (asked, time) in batch.iter().zip(times.iter()) {
            let outcome = match time {
                Time::Together(Protocol::Resp2) => told.two.pop_front(),
                Time::Together(Protocol::Resp3) => told.three.pop_front(),
                Time::Alone => told.alone.pop_front(),
                Time::Waits => self.waits.take(asked.guest),
                Time::Later => None,
            };
            if matches!(time, Time::Waits) && outcome.is_none() {
                waiting = Some(asked.guest);
            }
            let outcome = match outcome {
                Some(outcome) => outcome,
                None => not_asked(),
            };
            let outcome = in_form(asked.command, outcome);
            let is_done = matches!(outcome.fate, Fate::Answered | Fate::Lost);
            self.is_settled = self.is_settled && (is_done || waiting == Some(asked.guest));
            let _full = outcomes.push(outcome);
        }
    }
}

/// The outcome with nil in the form in which a server tells it in RESP2.
fn in_form(ask: &Ask, outcome: Outcome<Reply>) -> Outcome<Reply> {
    let Outcome { fate, reply } = outcome;
    let reply = match reply {
        Reply::Written(mut bytes) => {
            if bytes.as_slice() == b"$-1\r\n".as_slice()
                && ask.has_no_list()
                && let Some(first) = bytes.first_mut()
            {
                *first = b'*';
            }
            Reply::Written(bytes)
        }
        other => other,
    };
    Outcome { fate, reply }
}

/// Whether a batch has another command that was asked and may have put something there for one that waits.
fn touches(batch: &[Waiting<'_, Ask>], times: &[Time], waiting: &Ask) -> bool {
    for (asked, time) in batch.iter().zip(times.iter()) {
        if matches!(time, Time::Together(_) | Time::Alone) && asked.command.overlaps(waiting) {
            return true;
        }
    }
    false
}

impl<L: PipelinedLink + Drop> Servers<Ask, Reply> for Cluster<L> {
    ghost asks = { λ old batch outcomes new. Unit {0} };

    fn ask(
        &mut self,
        alloc: Global,
        batch: &[Waiting<'_, Ask>],
    ) -> Result<Vec<Outcome<Reply>>, AllocError> {
        let mut outcomes = Vec::with_capacity(alloc, batch.len())?;
        let times = times_of(alloc, batch)?;
        let two = part_of(alloc, batch, &times, Protocol::Resp2)?;
        let three = part_of(alloc, batch, &times, Protocol::Resp3)?;
        let mut alone = VecDeque::from_vec(Vec::with_capacity(alloc, batch.len())?);
        // What these get stays in `waits`, also where memory is refused below.
        self.note_waits(alloc, batch, &times, false);
        self.try_waits(alloc);
        let two = self.two.ask(alloc, &two)?;
        // From here on each command has an outcome: without memory the others wait.
        let three = match self.three.ask(alloc, &three) {
            Ok(told) => told,
            Err(_) => VecDeque::new(alloc),
        };
        self.ask_each_alone(alloc, batch, &times, &mut alone);
        self.note_waits(alloc, batch, &times, true);
        self.try_waits(alloc);
        let told = Told { two, three, alone };
        self.tell_all(batch, &times, told, &mut outcomes);
        outcomes.truncate(batch.len());
        'rest: for place in outcomes.len()..batch.len() {
            outcomes.push(not_asked())?;
        }
        Ok(outcomes)
    }
}
