//! A guest's connection.
ghost use Rattle.std.specs.Prelude.{◌≡◌, ◌<◌, [], length, OnOk, OnErr, IfOk, IfSome, IfNone, take, drop, false};
ghost use Rattle.proxy_core.specs.Guests.{queue_at};
ghost use Rattle.proxy_connection.specs.History.{beginning, fed_more, written_more};
ghost use Rattle.proxy_connection.specs.Moves.{AdvancesIn, AlwaysUnderWay, Fetches, HoldsEntry, IsUnderWayIn, Keeps, Rests};
ghost use Rattle.proxy_connection.specs.Serving.{AlwaysGoes, AlwaysStays, Goes, Serves, is_nothing, is_over, rest_of};
ghost use Rattle.proxy_connection.specs.Ways.{ways};

use crate::pending::Pending;
use crate::progress::Progress;
use crate::translator::{Translator, Written};
use proxy_core::{Command, Entry, Proxy, Refusal};
use resp_requests::{Limits, RequestError, RequestReader};
use std::alloc::{AllocError, Global};
use std::marker::Model;
use std::mem;

/// One guest of a proxy, between its bytes and its queue.
///
/// It keeps what came of the guest and has no place in its queue yet, and the reply that is going out. The
/// queue is that of the guest's number in the proxy: what else puts there or takes from there is seen by
/// nobody here. A contract sees all that it keeps.
#[derive(Drop)]
pub struct Connection<T, C, V> {
    guest: usize,
    requests: RequestReader,
    translator: T,
    pending: Pending<C, V>,
    // whether the answer to a fault is in the queue, or pending
    is_refused: bool,
    reply: Option<V>,
    // how many bytes of the reply were written
    count: usize,
}

impl<T, C, V> Model for Connection<T, C, V> {
    ghost use Rattle.proxy_connection.specs.State.{State};

    ghost Value = { State T C V };

    ghost view = { λ c. record {
      guest = c.guest;
      requests = c.requests;
      translator = c.translator;
      pending = c.pending;
      is_refused = c.is_refused;
      reply = c.reply;
      count = c.count;
    } };
}

impl<T: Translator<C, V>, C: Command, V: Written> Connection<T, C, V> {
    /// The connection of a guest that just joined the proxy by this number, under limits of what it may send.
    /// It takes no memory.
    pub fn new(alloc: Global, guest: usize, translator: T, limits: Limits) -> Connection<T, C, V>
        ensures begins { Serves (ways C.overlaps V.written T.Translator) result [] (beginning limits translator) }
        ensures guest { result.guest ≡ guest }
    {
        Connection {
            guest,
            requests: RequestReader::with_limits(alloc, limits),
            translator,
            pending: Pending::Nothing,
            is_refused: false,
            reply: None,
            count: 0,
        }
    }

    /// The guest's number.
    pub fn guest(&self) -> usize
        ensures { result ≡ self.now.guest }
    {
        self.guest
    }

    /// How the guest's words are understood by now.
    pub fn translator(&self) -> &T
        ensures { result.now ≡ self.now.translator }
    {
        &self.translator
    }

    /// Takes bytes that the guest sent, behind those before. Where memory is refused it changes nothing.
    pub fn feed(&mut self, bytes: &[u8]) -> Result<(), AllocError>
        ensures ok { OnOk result (AlwaysGoes (ways C.overlaps V.written T.Translator)
            self.old self.new (λ h. fed_more h bytes.now)) }
        ensures err { OnErr result (AlwaysStays (ways C.overlaps V.written T.Translator) self.old self.new) }
        ensures some { OnErr result (0 < length bytes.now) }
        ensures guest { self.new.guest ≡ self.old.guest }
    {
        self.requests.feed(bytes)?;
        Ok(())
    }

    /// Takes the guest's next command, and puts what it means into the guest's queue.
    ///
    /// Where memory is refused nothing is lost, and the call may be made again.
    pub fn advance(
        &mut self,
        alloc: Global,
        proxy: &mut Proxy<C, V>,
    ) -> Result<Progress, AllocError>
        ensures ok { IfOk result (λ progress. AdvancesIn (ways C.overlaps V.written T.Translator) C.bytes V.bytes
            self.old self.new proxy.old proxy.new progress) }
        ensures err { OnErr result (Keeps (ways C.overlaps V.written T.Translator)
            self.old.guest self.old self.new proxy.old.queues proxy.new.queues) }
        ensures due { OnErr result (IsUnderWayIn (ways C.overlaps V.written T.Translator) C.bytes V.bytes
            self.old self.new proxy.old) }
        ensures guest { self.new.guest ≡ self.old.guest }
        ensures openings { proxy.new.openings ≡ proxy.old.openings }
        ensures limits { proxy.new.limits ≡ proxy.old.limits }
    {
        if let Some(progress) = self.hear()? {
            return Ok(progress);
        }
        self.understand(alloc)?;
        self.put(proxy)
    }

    /// Reads the words of the next command, where nothing is pending; or why there are none.
    fn hear(&mut self) -> Result<Option<Progress>, AllocError>
        ensures stays { AlwaysStays (ways C.overlaps V.written T.Translator) self.old self.new }
        ensures none { IfOk result (λ progress. IfSome progress (λ why.
            Rests (ways C.overlaps V.written T.Translator) self.old self.new why)) }
        ensures some { IfOk result (λ progress. IfNone progress (is_nothing self.new.pending ≡ false)) }
        ensures due { OnErr result (AlwaysUnderWay (ways C.overlaps V.written T.Translator)
            C.bytes V.bytes self.new) }
        ensures guest { self.new.guest ≡ self.old.guest }
    {
        if !matches!(self.pending, Pending::Nothing) {
            return Ok(None);
        }
        if self.is_refused || self.translator.has_ended() {
            return Ok(Some(Progress::Ended));
        }
        let heard = match self.requests.take_command() {
            Ok(Some(words)) => Pending::Words(words),
            Ok(None) => return Ok(Some(Progress::Short)),
            Err(RequestError::Protocol(fault)) => Pending::Fault(fault),
            Err(RequestError::Memory) => return Err(AllocError),
        };
        self.pending = heard;
        Ok(None)
    }

    /// What the words that were read mean, or what is answered to a fault.
    fn understand(&mut self, alloc: Global) -> Result<(), AllocError>
        requires { is_nothing self.old.pending ≡ false }
        ensures entry { OnOk result (HoldsEntry self.new.pending) }
        ensures stays { AlwaysStays (ways C.overlaps V.written T.Translator) self.old self.new }
        ensures due { OnErr result (AlwaysUnderWay (ways C.overlaps V.written T.Translator)
            C.bytes V.bytes self.new) }
        ensures guest { self.new.guest ≡ self.old.guest }
    {
        let entry = match &self.pending {
            Pending::Words(words) => self.translator.translate(alloc, words)?,
            Pending::Fault(fault) => {
                let reply = self.translator.refuse(alloc, *fault)?;
                self.is_refused = true;
                Entry::Reads(reply)
            }
            Pending::Nothing | Pending::Entry(_) => return Ok(()),
        };
        self.pending = Pending::Entry(entry);
        Ok(())
    }

    /// Puts the entry that is pending into the guest's queue.
    fn put(&mut self, proxy: &mut Proxy<C, V>) -> Result<Progress, AllocError>
        requires { HoldsEntry self.old.pending }
        ensures ok { IfOk result (λ progress. AdvancesIn (ways C.overlaps V.written T.Translator) C.bytes V.bytes
            self.old self.new proxy.old proxy.new progress) }
        ensures err { OnErr result (Keeps (ways C.overlaps V.written T.Translator)
            self.old.guest self.old self.new proxy.old.queues proxy.new.queues) }
        ensures due { OnErr result (IsUnderWayIn (ways C.overlaps V.written T.Translator) C.bytes V.bytes
            self.old self.new proxy.old) }
        ensures guest { self.new.guest ≡ self.old.guest }
        ensures openings { proxy.new.openings ≡ proxy.old.openings }
        ensures limits { proxy.new.limits ≡ proxy.old.limits }
    {
        match mem::replace(&mut self.pending, Pending::Nothing) {
            Pending::Entry(entry) => match proxy.put(self.guest, entry) {
                Ok(()) => Ok(Progress::Taken),
                Err(refused) => {
                    self.pending = Pending::Entry(refused.value);
                    match refused.why {
                        Refusal::NoGuest => Ok(Progress::NoGuest),
                        Refusal::Full => Ok(Progress::Full),
                        Refusal::NoMemory => Err(AllocError),
                    }
                }
            },
            other => {
                self.pending = other;
                Ok(Progress::Short)
            }
        }
    }

    /// Looks for bytes to write: those that are left of the reply that is going out, or, where none are, those of
    /// the next reply. Whether there is a reply. It takes no memory.
    pub fn fetch(&mut self, proxy: &mut Proxy<C, V>) -> bool
        ensures fetches { Fetches (ways C.overlaps V.written T.Translator)
            self.old.guest self.old self.new proxy.old.queues proxy.new.queues result }
        ensures goes { Goes (ways C.overlaps V.written T.Translator)
            self.old (queue_at proxy.old.queues self.old.guest)
            self.new (queue_at proxy.new.queues self.old.guest) (λ h. h) }
        ensures guest { self.new.guest ≡ self.old.guest }
        ensures openings { proxy.new.openings ≡ proxy.old.openings }
        ensures limits { proxy.new.limits ≡ proxy.old.limits }
    {
        if !self.output().is_empty() {
            return true;
        }
        match proxy.take(self.guest) {
            Some(reply) => {
                self.reply = Some(reply);
                self.count = 0;
                true
            }
            None => false,
        }
    }

    /// The bytes that are to be written to the guest next.
    pub fn output(&self) -> &[u8]
        ensures { result.now ≡ rest_of V.written self.now.reply self.now.count }
    {
        match &self.reply {
            Some(reply) => match reply.written().get(self.count..) {
                Some(rest) => rest,
                None => &[],
            },
            None => &[],
        }
    }

    /// Tells that so many of these bytes were written; at most all of them are.
    pub fn wrote(&mut self, count: usize)
        ensures goes { AlwaysGoes (ways C.overlaps V.written T.Translator) self.old self.new
            (λ h. written_more h (take count (rest_of V.written self.old.reply self.old.count))) }
        ensures rest { rest_of V.written self.new.reply self.new.count
            ≡ drop count (rest_of V.written self.old.reply self.old.count) }
        ensures guest { self.new.guest ≡ self.old.guest }
    {
        if let Some(reply) = &self.reply {
            self.count = self.count.saturating_add(count).min(reply.written().len());
        }
    }

    /// Whether nothing more is read of the guest, and all of its replies are written.
    pub fn is_over(&self, proxy: &Proxy<C, V>) -> bool
        ensures { result ≡ is_over (ways C.overlaps V.written T.Translator) self.now
            (queue_at proxy.now.queues self.now.guest) }
    {
        (self.is_refused || self.translator.has_ended())
            && matches!(self.pending, Pending::Nothing)
            && proxy.held(self.guest) == 0
            && self.output().is_empty()
    }
}
