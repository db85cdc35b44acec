//! What a guest's words mean.
ghost use Rattle.std.specs.Prelude.{◌≡◌, [], OnErr};
ghost use Rattle.cluster_routing.specs.Directions.{direction as direction_of, shown_direction};

use crate::ask::Ask;
use crate::block::Block;
use crate::own::{self, line, refuse, unknown};
use crate::queued::{Place, Queued, place_of};
use crate::way::{Own, Way, is_word, way_by_table, way_of};
use crate::words::{SharedWords, is_known};
use cluster_client::{Cmd, Direction};
use cluster_servers::Reply;
use proxy_connection::Translator;
use proxy_core::Entry;
use resp_core::Protocol;
use resp_requests::Fault;
use std::alloc::{AllocError, Global};
use std::mem;

/// What a guest said that counts for its later words.
#[derive(Drop)]
pub(crate) struct Talk {
    /// What CLIENT ID tells.
    pub(crate) id: i64,
    /// Whether there is a clock, so that its commands can wait.
    pub(crate) has_clock: bool,
    pub(crate) protocol: Protocol,
    pub(crate) name: Vec<u8>,
    /// The commands since MULTI.
    pub(crate) queued: Option<Queued>,
    pub(crate) has_ended: bool,
    /// The words that the nodes know.
    words: SharedWords,
}

/// What a guest reads where a command behind MULTI has another slot than those before.
const CROSSES_SLOTS: &[u8] = b"-CROSSSLOT Keys in request don't hash to the same slot";

/// What a guest reads where a command has no place behind MULTI.
const NOT_IN_TRANSACTION: &[u8] = b"-ERR proxy: this command is not served behind MULTI";

impl Talk {
    pub(crate) fn new(alloc: Global, id: i64, has_clock: bool, words: SharedWords) -> Talk {
        Talk {
            id,
            has_clock,
            protocol: Protocol::Resp2,
            name: Vec::new(alloc),
            queued: None,
            has_ended: false,
            words,
        }
    }

    /// Forgets what the guest said, as RESET does.
    pub(crate) fn reset(&mut self, alloc: Global) {
        self.protocol = Protocol::Resp2;
        self.name = Vec::new(alloc);
        self.queued = None;
    }

    /// What a command outside a transaction puts into the queue.
    fn plain(
        &mut self,
        alloc: Global,
        way: Way,
        command: Cmd,
    ) -> Result<Entry<Ask, Reply>, AllocError>
        ensures err { OnErr result (self.new ≡ self.old) }
    {
        match way {
            Way::ByTable => {
                let ask = Ask::together(alloc, command, self.protocol)?;
                if ask.command.has_slots() {
                    return Ok(Entry::Waits(ask));
                }
                let way = way_by_table(ask.command.direction());
                Ok(Entry::Waits(ask.into_alone(way)))
            }
            Way::Refused => Ok(Entry::Reads(refuse(alloc, &command)?)),
            Way::Own(own) => Ok(Entry::Reads(own::answer(alloc, self, own, &command)?)),
            Way::Wait => self.wait(alloc, command),
            _ => Ok(Entry::Waits(Ask::alone(alloc, way, command, self.protocol)?)),
        }
    }

    /// What a command that waits puts into the queue.
    fn wait(&self, alloc: Global, command: Cmd) -> Result<Entry<Ask, Reply>, AllocError> {
        if !self.has_clock {
            return Ok(Entry::Reads(refuse(alloc, &command)?));
        }
        match Block::new(alloc, &command)? {
            Ok(block) => {
                let ask = Ask::wait(alloc, block, self.id, command, self.protocol)?;
                Ok(Entry::Waits(ask))
            }
            Err(fault) => Ok(Entry::Reads(line(alloc, &fault.line(alloc, &command)?)?)),
        }
    }

    /// What a command behind MULTI puts into the queue.
    fn behind_multi(
        &mut self,
        alloc: Global,
        way: Way,
        command: Cmd,
    ) -> Result<Entry<Ask, Reply>, AllocError>
        ensures err { OnErr result (self.new ≡ self.old) }
    {
        match way {
            Way::Own(Own::Exec) => self.exec(alloc, command),
            Way::Own(Own::Discard) => {
                let reply = line(alloc, b"+OK")?;
                self.queued = None;
                Ok(Entry::Reads(reply))
            }
            Way::Own(Own::Multi) => Ok(Entry::Reads(line(
                alloc,
                b"-ERR MULTI calls can not be nested",
            )?)),
            Way::Own(Own::Reset | Own::Quit | Own::Http) => self.plain(alloc, way, command),
            Way::Refused if is_word(&command, 0, b"WATCH") => Ok(Entry::Reads(line(
                alloc,
                b"-ERR WATCH inside MULTI is not allowed",
            )?)),
            Way::Own(Own::Ping | Own::Echo) | Way::FirstNode => self.queue_along(alloc, command),
            Way::Own(Own::Select) if is_word(&command, 1, b"0") => {
                self.queue_along(alloc, command)
            }
            Way::NewWord => {
                let why = unknown(alloc, &command)?;
                self.abort(alloc, &why)
            }
            Way::ByTable => self.queue_command(alloc, command, 0),
            Way::Wait => match Block::new(alloc, &command)? {
                Ok(Block { attempt, depth, .. }) => self.queue_command(alloc, attempt, depth),
                Err(fault) => self.abort(alloc, &fault.line(alloc, &command)?),
            },
            _ => self.abort(alloc, NOT_IN_TRANSACTION),
        }
    }

    /// Puts a command that any node may serve to those since MULTI.
    fn queue_along(&mut self, alloc: Global, command: Cmd) -> Result<Entry<Ask, Reply>, AllocError>
        ensures err { OnErr result (self.new ≡ self.old) }
    {
        let direction = Direction::for_routable(alloc, &command, &[])?;
        self.queue(alloc, command, direction, Place::Any, 0)
    }

    /// Puts a command to those since MULTI, if one node may serve it.
    fn queue_command(
        &mut self,
        alloc: Global,
        command: Cmd,
        depth: u8,
    ) -> Result<Entry<Ask, Reply>, AllocError>
        ensures err { OnErr result (self.new ≡ self.old) }
    {
        let direction = Direction::for_routable(alloc, &command, &[])?;
        match place_of(&direction) {
            Some(place) => self.queue(alloc, command, direction, place, depth),
            None => self.abort(alloc, NOT_IN_TRANSACTION),
        }
    }

    /// Puts a command with its direction to those since MULTI, unless it goes to another slot; so many lists in its
    /// reply give way to their items.
    fn queue(
        &mut self,
        alloc: Global,
        command: Cmd,
        direction: Direction,
        place: Place,
        depth: u8,
    ) -> Result<Entry<Ask, Reply>, AllocError>
        requires { shown_direction direction ≡ direction_of command.args [] }
        ensures err { OnErr result (self.new ≡ self.old) }
    {
        let reply = line(alloc, b"+QUEUED")?;
        let agrees = match &self.queued {
            Some(queued) => queued.agrees(place),
            None => true,
        };
        if !agrees {
            return self.abort(alloc, CROSSES_SLOTS);
        }
        if let Some(queued) = &mut self.queued {
            queued.add(alloc, command, direction, place, depth)?;
        }
        Ok(Entry::Reads(reply))
    }

    /// Answers a command behind MULTI by an error, so that nothing is done at EXEC.
    fn abort(&mut self, alloc: Global, why: &[u8]) -> Result<Entry<Ask, Reply>, AllocError>
        ensures err { OnErr result (self.new ≡ self.old) }
    {
        let reply = line(alloc, why)?;
        if let Some(queued) = &mut self.queued {
            queued.is_aborted = true;
        }
        Ok(Entry::Reads(reply))
    }

    fn exec(&mut self, alloc: Global, exec: Cmd) -> Result<Entry<Ask, Reply>, AllocError>
        ensures err { OnErr result (self.new ≡ self.old) }
    {
        let (is_aborted, is_empty) = match &self.queued {
            Some(queued) => (queued.is_aborted, queued.is_empty()),
            None => (false, true),
        };
        if is_aborted || is_empty {
            let reply = nothing_done(alloc, is_aborted)?;
            self.queued = None;
            return Ok(Entry::Reads(reply));
        }
        let ask = Ask::together(alloc, exec, self.protocol)?;
        match mem::replace(&mut self.queued, None) {
            Some(queued) => Ok(Entry::Waits(ask.with_queued(queued))),
            None => Ok(Entry::Waits(ask)),
        }
    }
}

/// What EXEC answers where no command is asked.
fn nothing_done(alloc: Global, is_aborted: bool) -> Result<Reply, AllocError> {
    if is_aborted {
        let why = b"-EXECABORT Transaction discarded because of previous errors.";
        line(alloc, why)
    } else {
        line(alloc, b"*0")
    }
}

impl Translator<Ask, Reply> for Talk {
    ghost translates = { λ old words entry new. Unit {0} };

    ghost refuses = { λ talk fault reply. Unit {0} };

    ghost has_ended = { λ talk. talk.has_ended };

    fn translate(
        &mut self,
        alloc: Global,
        words: &[Vec<u8>],
    ) -> Result<Entry<Ask, Reply>, AllocError> {
        let mut size = 0usize;
        for word in words {
            size = size.saturating_add(word.len());
        }
        let mut command = Cmd::with_capacity(alloc, words.len(), size)?;
        for word in words {
            command.arg(word.as_slice())?;
        }
        let way = way_of(&command);
        let way = if way.needs_word() && !is_known(&self.words, &command) {
            Way::NewWord
        } else {
            way
        };
        if self.queued.is_some() {
            return self.behind_multi(alloc, way, command);
        }
        self.plain(alloc, way, command)
    }

    fn refuse(&self, alloc: Global, fault: Fault) -> Result<Reply, AllocError> {
        let mut text = Vec::from_slice(alloc, b"-ERR ")?;
        text.extend_from_slice(&fault.message(alloc)?)?;
        line(alloc, &text)
    }

    fn has_ended(&self) -> bool {
        self.has_ended
    }
}
