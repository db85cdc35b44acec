//! The calls of a frontend.
ghost use Rattle.std.specs.Prelude.{◌≡◌, ◌<◌, ◌⊎◌, ℕ, [], length, true, false, IfOk, IfErr, OnOk, OnErr, MatchOption};
ghost use Rattle.std.specs.Option.{option_map};
ghost use Rattle.proxy_core.specs.Guests.{free_from, queue_at};
ghost use Rattle.proxy_connection.specs.Serving.{is_over};
ghost use Rattle.proxy_connection.specs.Ways.{ways};
ghost use Rattle.proxy_frontend.specs.Histories.{heard, joined, left, nobody};
ghost use Rattle.proxy_frontend.specs.Moves.{Advances, HasNext, IsConnected, IsJoinDue, IsUnderWayAt, Turns, Writes, has_bytes};
ghost use Rattle.proxy_frontend.specs.Serving.{AllGo, AllStay, Always, AreServed};
ghost use Rattle.proxy_frontend.specs.State.{connection_at};

use crate::connections::{place_at, remove_at, write_next};
use crate::frontend::Frontend;
use proxy_connection::{Connection, Progress, Translator, Written};
use proxy_core::{Command, JoinRefusal, Proxy, Servers};
use resp_requests::Limits;
use std::alloc::{AllocError, Global};

impl<T: Translator<C, V>, C: Command, V: Written> Frontend<T, C, V> {
    /// A frontend with no guest: `shares` is how much its proxy holds, and `limits` what a guest may send.
    pub fn new(alloc: Global, shares: proxy_core::Limits, limits: Limits) -> Frontend<T, C, V>
        ensures nobody { AreServed (ways C.overlaps V.written T.Translator) result nobody }
        ensures limits { result.limits ≡ limits }
        ensures shares { result.proxy.limits ≡ shares }
    {
        Frontend {
            proxy: Proxy::new(alloc, shares),
            connections: Vec::new(alloc),
            limits,
        }
    }

    /// Lets a guest in, whose words are understood so, and answers its number: the first one that no guest has.
    /// Where it is refused nothing has changed. The place of a guest that left takes no memory.
    pub fn join(&mut self, alloc: Global, translator: T) -> Result<usize, JoinRefusal>
        ensures number { IfOk result (λ g. g ≡ free_from 0 self.old.proxy.openings) }
        ensures within { IfOk result (λ g. g < self.old.proxy.limits.guests) }
        ensures ok { IfOk result (λ g. AllGo (ways C.overlaps V.written T.Translator)
            self.old self.new (joined g self.old.limits translator)) }
        ensures why { IfErr result (λ why. IsJoinDue self.old why) }
        ensures err { OnErr result (AllStay (ways C.overlaps V.written T.Translator) self.old self.new) }
        ensures queues { OnErr result (Always (ways C.overlaps V.written T.Translator)
            self.old (λ histories. (g : ℕ) → queue_at self.new.proxy.queues g
            ≡ queue_at self.old.proxy.queues g)) }
        ensures limits { self.new.limits ≡ self.old.limits }
        ensures shares { self.new.proxy.limits ≡ self.old.proxy.limits }
    {
        let guest = self.proxy.join(alloc)?;
        let connection = Connection::new(alloc, guest, translator, self.limits);
        match place_at(&mut self.connections, guest, connection) {
            Ok(()) => Ok(guest),
            Err(AllocError) => {
                self.proxy.leave(alloc, guest);
                Err(JoinRefusal::NoMemory)
            }
        }
    }

    /// Takes bytes that a guest sent, behind those before. Where no guest has that number nothing happens.
    ///
    /// # Errors `AllocError` where memory is refused: nothing changes, and the call may be made again.
    pub fn hear(&mut self, guest: usize, bytes: &[u8]) -> Result<(), AllocError>
        ensures ok { OnOk result (AllGo (ways C.overlaps V.written T.Translator)
            self.old self.new (heard guest bytes.now)) }
        ensures err { OnErr result (AllStay (ways C.overlaps V.written T.Translator) self.old self.new) }
        ensures due { OnErr result (IsConnected self.old guest) }
        ensures some { OnErr result (0 < length bytes.now) }
        ensures queues { self.new.proxy.queues ≡ self.old.proxy.queues }
        ensures openings { self.new.proxy.openings ≡ self.old.proxy.openings }
        ensures limits { self.new.limits ≡ self.old.limits }
        ensures shares { self.new.proxy.limits ≡ self.old.proxy.limits }
    {
        if self.connections.len() <= guest {
            return Ok(());
        }
        match &mut self.connections[guest] {
            Some(connection) => connection.feed(bytes),
            None => Ok(()),
        }
    }

    /// Takes a guest's next command, and puts what it means into the guest's queue; or tells why there is none.
    ///
    /// # Errors `AllocError` where memory is refused: nothing is lost, and the call may be made again.
    pub fn advance(&mut self, alloc: Global, guest: usize) -> Result<Progress, AllocError>
        ensures ok { IfOk result (λ progress. Advances (ways C.overlaps V.written T.Translator)
            C.bytes V.bytes self.old self.new guest progress) }
        ensures err { OnErr result (AllStay (ways C.overlaps V.written T.Translator) self.old self.new) }
        ensures due { OnErr result (IsConnected self.old guest) }
        ensures under_way { OnErr result (IsUnderWayAt (ways C.overlaps V.written T.Translator)
            C.bytes V.bytes self.old self.new guest) }
        ensures queues { OnErr result (self.new.proxy.queues ≡ self.old.proxy.queues) }
        ensures openings { self.new.proxy.openings ≡ self.old.proxy.openings }
        ensures limits { self.new.limits ≡ self.old.limits }
        ensures shares { self.new.proxy.limits ≡ self.old.proxy.limits }
    {
        if self.connections.len() <= guest {
            return Ok(Progress::NoGuest);
        }
        match &mut self.connections[guest] {
            Some(connection) => connection.advance(alloc, &mut self.proxy),
            None => Ok(Progress::NoGuest),
        }
    }

    /// Puts behind `out` the bytes that are to be written to a guest next: those of one reply. Whether there was a
    /// reply.
    ///
    /// # Errors `AllocError` where memory is refused: `out` has not changed, and a later call puts the same bytes.
    pub fn write(&mut self, guest: usize, out: &mut Vec<u8>) -> Result<bool, AllocError>
        ensures ok { IfOk result (λ any. Writes (ways C.overlaps V.written T.Translator)
            self.old self.new guest out.old.items out.new.items any) }
        ensures err { OnErr result (AllStay (ways C.overlaps V.written T.Translator) self.old self.new) }
        ensures out { OnErr result (out.new.items ≡ out.old.items) }
        ensures due { OnErr result (HasNext (ways C.overlaps V.written T.Translator)
            self.old guest (λ next. has_bytes next ≡ true)) }
        ensures openings { self.new.proxy.openings ≡ self.old.proxy.openings }
        ensures limits { self.new.limits ≡ self.old.limits }
        ensures shares { self.new.proxy.limits ≡ self.old.proxy.limits }
    {
        if self.connections.len() <= guest {
            return Ok(false);
        }
        match &mut self.connections[guest] {
            Some(connection) => write_next(connection, &mut self.proxy, out),
            None => Ok(false),
        }
    }

    /// Ends a guest: drops its connection, and what the proxy holds of it. Its number is free.
    pub fn leave(&mut self, alloc: Global, guest: usize)
        ensures ended { AllGo (ways C.overlaps V.written T.Translator) self.old self.new (left guest) }
        ensures limits { self.new.limits ≡ self.old.limits }
        ensures shares { self.new.proxy.limits ≡ self.old.proxy.limits }
    {
        remove_at(&mut self.connections, guest);
        self.proxy.leave(alloc, guest);
    }

    /// Asks the servers all that waits, in one call, and leaves each guest's queue as its outcomes say.
    ///
    /// # Errors `AllocError` where memory is refused: nothing changes, and the servers were not called or asked
    /// nothing.
    pub fn turn<S: Servers<C, V>>(
        &mut self,
        alloc: Global,
        servers: &mut S,
    ) -> Result<(), AllocError>
        ensures ok { OnOk result (Turns (ways C.overlaps V.written T.Translator) S.asks
            self.old self.new servers.old servers.new) }
        ensures err { OnErr result (AllStay (ways C.overlaps V.written T.Translator) self.old self.new) }
        ensures queues { OnErr result (self.new.proxy.queues ≡ self.old.proxy.queues) }
        ensures unasked { OnErr result ((servers.new ≡ servers.old) ⊎ S.asks servers.old [] [] servers.new) }
        ensures openings { self.new.proxy.openings ≡ self.old.proxy.openings }
        ensures limits { self.new.limits ≡ self.old.limits }
        ensures shares { self.new.proxy.limits ≡ self.old.proxy.limits }
    {
        self.proxy.turn(alloc, servers)
    }

    /// How many entries are held of a guest: commands that wait, and replies that were not written.
    pub fn held(&self, guest: usize) -> usize
        ensures { result ≡ length (queue_at self.now.proxy.queues guest) }
    {
        self.proxy.held(guest)
    }

    /// Whether nothing more is read of a guest, and all of its replies are written; not so where no guest has that
    /// number.
    pub fn is_over(&self, guest: usize) -> bool
        ensures { MatchOption (connection_at self.now.connections guest) (result ≡ false)
            (λ c. result ≡ is_over (ways C.overlaps V.written T.Translator) c
            (queue_at self.now.proxy.queues c.guest)) }
    {
        match self.connections.get(guest) {
            Some(Some(connection)) => connection.is_over(&self.proxy),
            _ => false,
        }
    }

    /// How a guest's words are understood by now.
    pub fn translator(&self, guest: usize) -> Option<&T>
        ensures { option_map (λ t. t.now) result
            ≡ option_map (λ c. c.translator) (connection_at self.now.connections guest) }
    {
        match self.connections.get(guest) {
            Some(Some(connection)) => Some(connection.translator()),
            _ => None,
        }
    }
}
