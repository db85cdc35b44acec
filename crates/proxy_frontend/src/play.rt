//! Runs of calls, one after another, each with what it answered.
ghost use Rattle.std.specs.Prelude.{◌≡◌, ◌≢◌, [], true, false, IfOk, MatchOption, OnErr, OnOk};
ghost use Rattle.proxy_connection.specs.Ways.{ways};
ghost use Rattle.proxy_frontend.specs.Moves.{HasNext, Writes, has_bytes};
ghost use Rattle.proxy_frontend.specs.Serving.{AllStay};
ghost use Rattle.proxy_frontend.specs.Steps.{MakesOne, Plays};

use crate::frontend::Frontend;
use proxy_connection::{Progress, Translator, Written};
use proxy_core::{Command, JoinRefusal, Servers};
use std::alloc::{AllocError, Global};
use std::collections::VecDeque;

/// A call of a frontend, as `Frontend::play` makes it.
#[derive(Drop)]
pub enum Call<T> {
    /// `Frontend::join`.
    Join(T),
    /// `Frontend::hear`.
    Hear(usize, Vec<u8>),
    /// `Frontend::advance`.
    Advance(usize),
    /// `Frontend::write`.
    Write(usize),
    /// `Frontend::leave`.
    Leave(usize),
    /// `Frontend::turn`.
    Turn,
}

/// What a call answers.
#[derive(Drop)]
pub enum Answer {
    /// A guest was let in, with this number.
    Joined(usize),
    /// No guest was let in.
    NotJoined(JoinRefusal),
    /// The bytes were taken.
    Heard,
    /// What came of looking for the guest's next command.
    Advanced(Progress),
    /// The bytes that are to be written to the guest.
    Wrote(Vec<u8>),
    /// No reply is there to write.
    WroteNothing,
    /// The guest was ended.
    Left,
    /// The servers were asked what waits.
    Turned,
    /// Memory was refused; the call may be made again.
    NoMemory,
}

impl<T: Translator<C, V>, C: Command, V: Written> Frontend<T, C, V> {
    /// What is to be written to a guest next.
    fn next_of(&mut self, alloc: Global, guest: usize) -> Result<Option<Vec<u8>>, AllocError>
        ensures ok { IfOk result (λ next. MatchOption next
            (Writes (ways C.overlaps V.written T.Translator) self.old self.new guest [] [] false)
            (λ bytes. Writes (ways C.overlaps V.written T.Translator) self.old self.new guest [] bytes.items true)) }
        ensures err { OnErr result (AllStay (ways C.overlaps V.written T.Translator) self.old self.new) }
        ensures due { OnErr result (HasNext (ways C.overlaps V.written T.Translator)
            self.old guest (λ next. has_bytes next ≡ true)) }
        ensures limits { self.new.limits ≡ self.old.limits }
        ensures shares { self.new.proxy.limits ≡ self.old.proxy.limits }
    {
        let mut bytes = Vec::new(alloc);
        if self.write(guest, &mut bytes)? {
            Ok(Some(bytes))
        } else {
            Ok(None)
        }
    }

    /// What a call answers.
    fn answer_to<S: Servers<C, V>>(
        &mut self,
        alloc: Global,
        servers: &mut S,
        call: Call<T>,
    ) -> Answer
        ensures { MakesOne (ways C.overlaps V.written T.Translator) C.bytes V.bytes S.asks
            call result self.old servers.old self.new servers.new }
    {
        match call {
            Call::Join(translator) => match self.join(alloc, translator) {
                Ok(guest) => Answer::Joined(guest),
                Err(why) => Answer::NotJoined(why),
            },
            Call::Hear(guest, bytes) => match self.hear(guest, &bytes) {
                Ok(()) => Answer::Heard,
                Err(AllocError) => Answer::NoMemory,
            },
            Call::Advance(guest) => match self.advance(alloc, guest) {
                Ok(progress) => Answer::Advanced(progress),
                Err(AllocError) => Answer::NoMemory,
            },
            Call::Write(guest) => match self.next_of(alloc, guest) {
                Ok(Some(bytes)) => Answer::Wrote(bytes),
                Ok(None) => Answer::WroteNothing,
                Err(AllocError) => Answer::NoMemory,
            },
            Call::Leave(guest) => {
                self.leave(alloc, guest);
                Answer::Left
            }
            Call::Turn => match self.turn(alloc, servers) {
                Ok(()) => Answer::Turned,
                Err(AllocError) => Answer::NoMemory,
            },
        }
    }

    /// Makes the calls one after another, and puts behind `answers` what each answered. A refused call does not end
    /// the run: its refusal is its answer.
    ///
    /// # Errors `AllocError` where memory is refused for what a call is to answer; this is found before the call, and
    /// it stays in `calls` with those behind it.
    pub fn play<S: Servers<C, V>>(
        &mut self,
        alloc: Global,
        servers: &mut S,
        calls: &mut VecDeque<Call<T>>,
        answers: &mut Vec<Answer>,
    ) -> Result<(), AllocError>
        ensures played { Plays (ways C.overlaps V.written T.Translator) C.bytes V.bytes S.asks
            calls.old.items calls.new.items answers.old.items answers.new.items
            self.old servers.old self.new servers.new }
        ensures all { OnOk result (calls.new.items ≡ []) }
        ensures cut { OnErr result (calls.new.items ≢ []) }
    {
        'calls: for _i in 0..calls.len() {
            answers.reserve(1)?;
            let Some(call) = calls.pop_front() else {
                break;
            };
            let answer = self.answer_to(alloc, servers, call);
            answers.push(answer).unwrap();
        }
        Ok(())
    }
}
