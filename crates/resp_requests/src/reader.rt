//! A reader of requests over a growing buffer.
ghost use Rattle.std.specs.Prelude.{◌≤◌, drop};
ghost use Rattle.std.specs.Vec.{vec_len};
ghost use Rattle.resp_requests.specs.Searches.{Searched};

use crate::argument::{argument_of, count_of};
use crate::error::RequestError;
use crate::fault::Fault;
use crate::limits::Limits;
use crate::stop::Stop;
use crate::words::inline_of;
use std::alloc::{AllocError, Global};
use std::mem;

/// Takes bytes in pieces, and hands out the commands that they spell.
///
/// It keeps the arguments that are whole of an unfinished array, and the bytes behind them. Of a line that is
/// unfinished the search goes on where it ended, when more bytes were fed.
#[derive(Drop)]
pub struct RequestReader {
    buffer: Vec<u8>,
    // the bytes before it were taken
    front: usize,
    // so many bytes behind it were searched, and hold no end of a line
    searched: usize,
    // the arguments that were taken of an array, and how many it lacks
    arguments: Vec<Vec<u8>>,
    missing: usize,
    limits: Limits,
    // the fault that it told
    fault: Option<Fault>,
    ghost front_within: { front ≤ vec_len buffer },
    ghost searches: { Searched limits missing (drop front buffer.items) searched },
}

impl RequestReader {
    ghost use Rattle.std.specs.Prelude.{◌≡◌, ◌<◌, ◌+◌, ◌*◌, ◌-◌, ◌⊎◌, ◌↔◌, List, [], ◌∷◌, ◌++◌, ℕ, length, drop, IfOk, IfErr, IfSome, IfNone, OnOk, OnErr, IsErrOf, zero, Some, None};
    ghost use Rattle.resp_requests.specs.declared.limits.Limits.{Limits};
    ghost use Rattle.resp_requests.specs.declared.fault.Fault.{Fault};
    ghost use Rattle.resp_requests.specs.declared.error.RequestError.TheVariants.{Protocol, Memory};
    ghost use Rattle.resp_requests.specs.declared.stop.Stop.TheVariants.{Short};
    ghost use Rattle.resp_requests.specs.declared.stop.Stop.TheVariants as stops;
    ghost use Rattle.resp_requests.specs.Given.{texts};
    ghost use Rattle.resp_requests.specs.Requests.{Command};
    ghost use Rattle.resp_requests.specs.Standing.{Stands, IsNext, AreAll, AreBeforeFault, waiting, going, told, limits_of, kept, room};
    ghost use Rattle.resp_requests.specs.Advancing.{Advances, FrontMoves, SameBytes, StarWaits, OtherWaits};

    /// A reader that was fed nothing, under the limits of Redis. It takes no memory.
    pub fn new(alloc: Global) -> RequestReader
        ensures empty { Stands result [] [] }
        ensures waiting { waiting result ≡ [] }
        ensures told { told result ≡ None }
        ensures room { room result ≡ 0 }
        ensures arguments { (limits_of result).most_arguments ≡ 2147483647 }
        ensures argument { (limits_of result).longest_argument ≡ 536870912 }
        ensures line { (limits_of result).longest_line ≡ 65536 }
    {
        RequestReader::with_limits(alloc, Limits::of_redis())
    }

    /// A reader that was fed nothing, under these limits. It takes no memory.
    pub fn with_limits(alloc: Global, limits: Limits) -> RequestReader
        ensures empty { Stands result [] [] }
        ensures waiting { waiting result ≡ [] }
        ensures told { told result ≡ None }
        ensures room { room result ≡ 0 }
        ensures limits { limits_of result ≡ limits }
    {
        RequestReader {
            buffer: Vec::new(alloc),
            front: 0,
            searched: 0,
            arguments: Vec::new(alloc),
            missing: 0,
            limits,
            fault: None,
        }
    }

    /// Adds bytes behind those that were fed before.
    ///
    /// Where memory is refused it changes nothing.
    pub fn feed(&mut self, piece: &[u8]) -> Result<(), AllocError>
        ensures ok { OnOk result ((commands : List Command) (bytes : List ℕ) → Stands self.old commands bytes
            → Stands self.new commands (bytes ++ piece.now)) }
        ensures err { OnErr result ((commands : List Command) (bytes : List ℕ)
            → Stands self.old commands bytes → Stands self.new commands bytes) }
        ensures fed { OnOk result (waiting self.new ≡ waiting self.old ++ piece.now) }
        ensures not_fed { OnErr result (waiting self.new ≡ waiting self.old) }
        ensures due { OnErr result (0 < length piece.now) }
        // What was taken is half of what it keeps at most.
        ensures kept { kept self.new ≤ 2 * length (waiting self.new) }
        ensures told { told self.new ≡ told self.old }
        ensures limits { limits_of self.new ≡ limits_of self.old }
    {
        self.drop_front();
        self.buffer.extend_from_slice(piece)
    }

    /// Forgets what was taken, once it is half of the buffer or more.
    fn drop_front(&mut self)
        ensures waiting { waiting self.new ≡ waiting self.old }
        ensures half { self.new.front ≤ length (waiting self.new) }
        ensures searched { self.new.searched ≡ self.old.searched }
        ensures arguments { self.new.arguments ≡ self.old.arguments }
        ensures missing { self.new.missing ≡ self.old.missing }
        ensures told { self.new.fault ≡ self.old.fault }
        ensures limits { self.new.limits ≡ self.old.limits }
    {
        let left = self.buffer.len() - self.front;
        if self.front >= left {
            self.buffer.copy_within(self.front.., 0);
            self.buffer.truncate(left);
            self.front = 0;
        }
    }

    /// The next command: its name, and its arguments. `None` where the bytes so far hold no whole command
    /// more, and no fault. Empty lines and empty arrays are left out.
    ///
    /// It refuses by `RequestError::Protocol` where a fault stands behind the commands that were handed out,
    /// and from then on; and by `RequestError::Memory` where memory was refused, after which it may be called
    /// again. Source: the RESP specification, and Redis 7.0.15.
    pub fn take_command(&mut self) -> Result<Option<Vec<Vec<u8>>>, RequestError>
        // A command is the next one of the bytes, behind those that were handed out.
        ensures command { IfOk result (λ o. IfSome o (λ c. (commands : List Command) (bytes : List ℕ)
            → Stands self.old commands bytes
            → IsNext (limits_of self.old) bytes commands (texts c.items)
            × Stands self.new (commands ++ texts c.items ∷ []) bytes)) }
        ensures name { IfOk result (λ o. IfSome o (λ c. 0 < vec_len c)) }
        // No command is answered only where all were handed out, and the bytes behind them are no fault.
        ensures none { IfOk result (λ o. IfNone o ((commands : List Command) (bytes : List ℕ)
            → Stands self.old commands bytes
            → AreAll (limits_of self.old) bytes commands × Stands self.new commands bytes)) }
        // A fault is told only where it stands behind the commands that were handed out.
        ensures fault { (f : Fault) → IsErrOf result (Protocol f) → (commands : List Command) (bytes : List ℕ)
            → Stands self.old commands bytes
            → AreBeforeFault (limits_of self.old) bytes commands f × Stands self.new commands bytes }
        ensures memory { IsErrOf result Memory → (commands : List Command) (bytes : List ℕ)
            → Stands self.old commands bytes → Stands self.new commands bytes }
        // Memory is wanted only for bytes that wait.
        ensures due { IsErrOf result Memory → 0 < length (waiting self.new) }
        // A fault is told for good.
        ensures told { (f : Fault) → IsErrOf result (Protocol f) ↔ told self.new ≡ Some f }
        ensures stays { (f : Fault) → told self.old ≡ Some f → IsErrOf result (Protocol f) }
        // What is announced takes no room before it is fed.
        ensures kept { kept self.new ≡ kept self.old }
        ensures room { room self.new ≡ room self.old }
        ensures limits { limits_of self.new ≡ limits_of self.old }
    {
        if let Some(fault) = self.fault {
            return Err(RequestError::Protocol(fault));
        }
        'requests: loop {
            match self.advance() {
                Ok(Some(command)) => {
                    if !command.is_empty() {
                        return Ok(Some(command));
                    }
                }
                Ok(None) => {}
                Err(Stop::Short) => return Ok(None),
                Err(Stop::Fault(fault)) => {
                    self.fault = Some(fault);
                    return Err(RequestError::Protocol(fault));
                }
                Err(Stop::Memory) => return Err(RequestError::Memory),
            }
        }
    }

    /// The count of an array, an argument, or an inline line. It answers the command that is then whole.
    fn advance(&mut self) -> Result<Option<Vec<Vec<u8>>>, Stop>
        ensures advances { Advances result self.old self.new }
        ensures moves { IfOk result (λ _. self.old.front < self.new.front) }
        ensures due { IsErrOf result stops.Memory → self.new.front < vec_len self.new.buffer }
        ensures same { SameBytes self.old self.new }
    {
        if self.front == self.buffer.len() {
            return Err(Stop::Short);
        }
        if self.missing > 0 {
            return self.take_argument();
        }
        if self.buffer[self.front] == b'*' {
            self.begin_array()
        } else {
            self.take_line()
        }
    }

    fn begin_array(&mut self) -> Result<Option<Vec<Vec<u8>>>, Stop>
        requires between { self.old.missing ≡ 0 }
        requires star { StarWaits self.old }
        ensures advances { Advances result self.old self.new }
        ensures front { FrontMoves result self.old self.new }
        ensures same { SameBytes self.old self.new }
    {
        let waiting = &self.buffer[self.front..];
        let (count, rest) = count_of(waiting, &mut self.searched, self.limits)?;
        self.front = self.buffer.len() - rest.len();
        self.searched = 0;
        let alloc = *self.buffer.allocator();
        if count == 0 {
            return Ok(Some(Vec::new(alloc)));
        }
        self.arguments = Vec::new(alloc);
        self.missing = count;
        Ok(None)
    }

    fn take_argument(&mut self) -> Result<Option<Vec<Vec<u8>>>, Stop>
        requires { 0 < self.old.missing }
        ensures advances { Advances result self.old self.new }
        ensures front { FrontMoves result self.old self.new }
        ensures same { SameBytes self.old self.new }
    {
        let alloc = *self.buffer.allocator();
        let waiting = &self.buffer[self.front..];
        let (argument, rest) = argument_of(alloc, waiting, &mut self.searched, self.limits)?;
        let left = rest.len();
        self.arguments.push(argument)?;
        self.front = self.buffer.len() - left;
        self.searched = 0;
        self.missing -= 1;
        if self.missing > 0 {
            return Ok(None);
        }
        Ok(Some(mem::replace(&mut self.arguments, Vec::new(alloc))))
    }

    fn take_line(&mut self) -> Result<Option<Vec<Vec<u8>>>, Stop>
        requires between { self.old.missing ≡ 0 }
        requires no_star { OtherWaits self.old }
        // What waits of an unfinished line is not searched again.
        ensures searched { IsErrOf result Short → self.new.searched ≡ length (waiting self.new) }
        ensures advances { Advances result self.old self.new }
        ensures front { FrontMoves result self.old self.new }
        ensures same { SameBytes self.old self.new }
    {
        let alloc = *self.buffer.allocator();
        let waiting = &self.buffer[self.front..];
        let (words, rest) = inline_of(alloc, waiting, &mut self.searched, self.limits)?;
        self.front = self.buffer.len() - rest.len();
        self.searched = 0;
        Ok(Some(words))
    }
}
