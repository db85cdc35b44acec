//! Guests whose commands wait for what is not there yet. Each is tried anew once another command may have put
//! it there, and whenever the clock ticks, in the order in which they began to wait.
use crate::block::Block;
use crate::held::ask_first;
use crate::last_ids::with_last_ids;
use crate::own::line;
use crate::side::Side;
use cluster_client::{Cause, ClusterClient, Cmd, ConnectionLike, RedisError, Value};
use cluster_servers::{GuestCommand, Reply};
use node_files::is_doubtful;
use proxy_core::{Fate, Outcome};
use resp_core::{Protocol, WriteError};
use std::alloc::{AllocError, Global};
use std::mem;

/// How CLIENT UNBLOCK ends a wait.
#[derive(Clone, Copy, Debug, PartialEq, Eq)]
pub(crate) enum Release {
    /// As if its time were over.
    Timeout,
    /// By an error.
    Error,
}

/// A guest's command that waits.
#[derive(Drop)]
pub(crate) struct Wait {
    guest: usize,
    /// The guest's id, as CLIENT ID tells it.
    id: i64,
    protocol: Protocol,
    block: Block,
    /// What is asked at each try, with where it goes, once it has begun.
    attempt: Option<GuestCommand>,
    /// When it ends with nothing, once the clock has told when it began.
    end: Option<u64>,
    /// Whether it is tried in this turn.
    is_due: bool,
    release: Option<Release>,
    outcome: Option<Outcome<Reply>>,
}

/// All of them, in the order in which they began.
#[derive(Drop)]
pub(crate) struct Waits {
    waits: Vec<Wait>,
    /// What the clock said last, in milliseconds.
    now: u64,
    has_ticked: bool,
}

/// What a guest is told of a command that was done, or was refused by its node.
fn answered(reply: Reply) -> Option<Outcome<Reply>> {
    Some(Outcome {
        fate: Fate::Answered,
        reply,
    })
}

fn lost() -> Option<Outcome<Reply>> {
    Some(Outcome {
        fate: Fate::Lost,
        reply: Reply::Unwritten(WriteError::Memory),
    })
}

fn line_or_lost(alloc: Global, text: &[u8]) -> Option<Outcome<Reply>> {
    match line(alloc, text) {
        Ok(reply) => answered(reply),
        Err(AllocError) => lost(),
    }
}

/// What an error means to a command that waits already.
enum Meaning {
    /// It waits on.
    Nothing,
    /// The guest reads this line.
    Line(&'static [u8]),
    /// The guest reads the error.
    Error,
}

/// Where no link leads to its node it waits on. A key of another type counts as none, but to a reader of a group,
/// whose stream is gone then, and to one with a destination, which may be of another type itself.
fn meaning_of(error: &RedisError, block: &Block) -> Meaning {
    if matches!(error.cause(), Some(Cause::NoNode | Cause::NoLink)) {
        return Meaning::Nothing;
    }
    match error.code() {
        Some("WRONGTYPE") if block.is_of_group => {
            Meaning::Line(b"-UNBLOCKED the stream key no longer exists")
        }
        Some("WRONGTYPE") if !block.has_destination => Meaning::Nothing,
        Some("NOGROUP") => {
            Meaning::Line(
                b"-NOGROUP the consumer group this client was blocked on no longer exists",
            )
        }
        _ => Meaning::Error,
    }
}

/// Asks by the node of the keys' slot, or where the routing table finds no keys by one that says what is
/// wrong.
fn ask_once<L: ConnectionLike + Drop>(
    alloc: Global,
    client: &mut ClusterClient<L>,
    attempt: &GuestCommand,
) -> Result<Value, RedisError> {
    let told: Result<Value, RedisError> = client.query_directed(
        alloc,
        &attempt.directed(),
        0,
        None,
    );
    match &told {
        Err(error) if error.cause() == Some(Cause::NoRoute) => {}
        _ => return told,
    }
    ask_first(alloc, client, attempt.command())
}

impl Wait {
    /// Makes what is asked at each try, and looks up where it goes.
    fn begin<L: ConnectionLike + Drop>(
        &mut self,
        alloc: Global,
        client: &mut ClusterClient<L>,
    ) -> Result<(), RedisError> {
        with_last_ids(alloc, client, &mut self.block.attempt)?;
        let command = mem::replace(&mut self.block.attempt, Cmd::new(alloc));
        self.attempt = Some(GuestCommand::new(alloc, command, self.protocol)?);
        Ok(())
    }

    /// Asks once.
    fn ask<L: ConnectionLike + Drop>(&mut self, alloc: Global, side: &mut Side<L>) {
        let client = &mut side.servers.client;
        let has_begun = self.attempt.is_some();
        if !has_begun {
            match self.begin(alloc, client) {
                Ok(()) => {}
                Err(error) => {
                    self.outcome = answered(Reply::new(alloc, Err(error), self.protocol));
                    return;
                }
            }
        }
        let Some(attempt) = &self.attempt else {
            return;
        };
        let told = ask_once(alloc, client, attempt);
        if let Err(error) = &told
            && is_doubtful(error)
        {
            side.learning.doubt();
        }
        self.outcome = match told {
            Ok(reply) => self.outcome_of(alloc, reply),
            Err(error) => self.outcome_by(alloc, error, has_begun),
        };
    }

    /// The outcome where a node answered.
    fn outcome_of(&self, alloc: Global, reply: Value) -> Option<Outcome<Reply>> {
        if matches!(reply, Value::Nil) {
            return None;
        }
        match self.block.reply_of(alloc, reply) {
            Ok(reply) => answered(Reply::new(alloc, Ok(reply), self.protocol)),
            Err(AllocError) => lost(),
        }
    }

    /// The outcome where there was an error.
    fn outcome_by(
        &self,
        alloc: Global,
        error: RedisError,
        has_begun: bool,
    ) -> Option<Outcome<Reply>> {
        let meaning = if has_begun {
            meaning_of(&error, &self.block)
        } else {
            Meaning::Error
        };
        match meaning {
            Meaning::Nothing => None,
            Meaning::Line(text) => line_or_lost(alloc, text),
            Meaning::Error => answered(Reply::new(alloc, Err(error), self.protocol)),
        }
    }

    /// Ends it where its time is over, or where it was released.
    fn end_in_time(&mut self, alloc: Global, now: u64) {
        let is_over = match self.end {
            Some(end) => end <= now,
            None => false,
        };
        self.outcome = match self.release {
            Some(Release::Error) => {
                line_or_lost(alloc, b"-UNBLOCKED client unblocked via CLIENT UNBLOCK")
            }
            None if !is_over => return,
            _ => answered(Reply::new(alloc, Ok(Value::Nil), self.protocol)),
        };
    }
}

impl Waits {
    pub(crate) fn new(alloc: Global) -> Waits {
        Waits {
            waits: Vec::new(alloc),
            now: 0,
            has_ticked: false,
        }
    }

    /// How many wait.
    pub(crate) fn count(&self) -> usize {
        self.waits.len()
    }

    /// Takes what the clock says.
    pub(crate) fn tick(&mut self, now: u64) {
        self.now = now;
        self.has_ticked = true;
        for wait in &mut self.waits {
            if wait.end.is_none() && wait.block.timeout > 0 {
                wait.end = Some(now.saturating_add(wait.block.timeout));
            }
        }
    }

    fn place_of(&self, guest: usize) -> Option<usize> {
        for (place, wait) in self.waits.iter().enumerate() {
            if wait.guest == guest {
                return Some(place);
            }
        }
        None
    }

    /// Forgets a guest that is gone.
    pub(crate) fn forget(&mut self, guest: usize) {
        if let Some(place) = self.place_of(guest)
            && place < self.waits.len()
        {
            let _gone = self.waits.remove(place);
        }
    }

    /// Ends the wait of the guest of an id; whether it waited.
    pub(crate) fn release(&mut self, id: i64, release: Release) -> bool {
        for wait in &mut self.waits {
            if wait.id == id {
                wait.release = Some(release);
                wait.is_due = true;
                return true;
            }
        }
        false
    }

    /// Takes note of a guest's command, which is tried in this turn where it is new, where the clock ticked or
    /// where a command was asked that may have put something there.
    pub(crate) fn note(
        &mut self,
        alloc: Global,
        guest: usize,
        id: i64,
        protocol: Protocol,
        block: &Block,
        is_touched: bool,
    ) -> Result<(), AllocError> {
        let is_due = is_touched || self.has_ticked;
        for wait in &mut self.waits {
            if wait.guest == guest {
                wait.is_due = wait.is_due || is_due;
                return Ok(());
            }
        }
        self.waits.push(Wait {
            guest,
            id,
            protocol,
            block: block.clone()?,
            attempt: None,
            end: None,
            is_due: true,
            release: None,
            outcome: None,
        })?;
        Ok(())
    }

    /// Tries each once that is due and has no outcome; whether one got something.
    fn try_each<L: ConnectionLike + Drop>(
        &mut self,
        alloc: Global,
        two: &mut Side<L>,
        three: &mut Side<L>,
    ) -> bool {
        let mut has_got = false;
        for wait in &mut self.waits {
            if !wait.is_due || wait.outcome.is_some() {
                continue;
            }
            match wait.protocol {
                Protocol::Resp2 => wait.ask(alloc, two),
                Protocol::Resp3 => wait.ask(alloc, three),
            }
            has_got = has_got || wait.outcome.is_some();
        }
        has_got
    }

    fn make_all_due(&mut self) {
        for wait in &mut self.waits {
            wait.is_due = true;
        }
    }

    fn end_in_time(&mut self, alloc: Global) {
        for wait in &mut self.waits {
            if wait.outcome.is_none() {
                wait.end_in_time(alloc, self.now);
            }
            wait.is_due = false;
        }
        self.has_ticked = false;
    }

    /// Tries those that are due, and all where one got something, since it may have put it where another
    /// waits; then ends those whose time is over.
    pub(crate) fn try_all<L: ConnectionLike + Drop>(
        &mut self,
        alloc: Global,
        two: &mut Side<L>,
        three: &mut Side<L>,
    ) {
        for _ in 0..self.waits.len() {
            if !self.try_each(alloc, two, three) {
                break;
            }
            self.make_all_due();
        }
        self.end_in_time(alloc);
    }

    /// The outcome of a guest's command, which does not wait any more, where there is one.
    pub(crate) fn take(&mut self, guest: usize) -> Option<Outcome<Reply>> {
        let place = self.place_of(guest)?;
        if place >= self.waits.len() || self.waits[place].outcome.is_none() {
            return None;
        }
        self.waits.remove(place).outcome
    }
}
