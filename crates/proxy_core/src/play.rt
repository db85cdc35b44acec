//! Runs of calls, one after another, each with what it answered.
ghost use Rattle.std.specs.Prelude.{◌≡◌, ◌≢◌, [], OnErr, OnOk};
ghost use Rattle.proxy_core.specs.Steps.{MakesOne, Plays};

use crate::command::{Bytes, Command};
use crate::proxy::Proxy;
use crate::queue::Entry;
use crate::refusal::{JoinRefusal, Refused};
use crate::servers::Servers;
use std::alloc::{AllocError, Global};
use std::collections::VecDeque;

/// A call of a proxy, as `Proxy::play` makes it.
#[derive(Drop)]
pub enum Call<C, V> {
    /// `Proxy::join`.
    Join,
    /// `Proxy::put`.
    Put(usize, Entry<C, V>),
    /// `Proxy::take`.
    Take(usize),
    /// `Proxy::leave`.
    Leave(usize),
    /// `Proxy::turn`.
    Turn,
}

/// What a call answers.
#[derive(Drop)]
pub enum Answer<C, V> {
    /// A guest was let in, with this number.
    Joined(usize),
    /// No guest was let in.
    NotJoined(JoinRefusal),
    /// The entry was taken.
    Put,
    /// The entry was not taken.
    Refused(Refused<Entry<C, V>>),
    /// The guest's next reply.
    Took(V),
    /// No reply is there to take.
    Nothing,
    /// The guest was ended.
    Left,
    /// The servers were asked what waits.
    Turned,
    /// Memory was refused, and nothing was done.
    NoMemory,
}

impl<C: Command, V: Bytes> Proxy<C, V> {
    /// What a call answers.
    fn answer_to<S: Servers<C, V>>(
        &mut self,
        alloc: Global,
        servers: &mut S,
        call: Call<C, V>,
    ) -> Answer<C, V>
        ensures { MakesOne C.overlaps C.bytes V.bytes S.asks call result
            self.old servers.old self.new servers.new }
    {
        match call {
            Call::Join => match self.join(alloc) {
                Ok(guest) => Answer::Joined(guest),
                Err(why) => Answer::NotJoined(why),
            },
            Call::Put(guest, entry) => match self.put(guest, entry) {
                Ok(()) => Answer::Put,
                Err(refused) => Answer::Refused(refused),
            },
            Call::Take(guest) => match self.take(guest) {
                Some(reply) => Answer::Took(reply),
                None => Answer::Nothing,
            },
            Call::Leave(guest) => {
                self.leave(alloc, guest);
                Answer::Left
            }
            Call::Turn => match self.turn(alloc, servers) {
                Ok(()) => Answer::Turned,
                Err(AllocError) => Answer::NoMemory,
            },
        }
    }

    /// Makes the calls one after another, and puts behind `answers` what each answered. A refused call
    /// does not end the run: its refusal is its answer.
    ///
    /// # Errors `AllocError` where memory is refused for what a call is to answer; this is found before
    /// the call, and it stays in `calls` with those behind it.
    pub fn play<S: Servers<C, V>>(
        &mut self,
        alloc: Global,
        servers: &mut S,
        calls: &mut VecDeque<Call<C, V>>,
        answers: &mut Vec<Answer<C, V>>,
    ) -> Result<(), AllocError>
        ensures played { Plays C.overlaps C.bytes V.bytes S.asks calls.old.items calls.new.items
            answers.old.items answers.new.items self.old servers.old self.new servers.new }
        ensures all { OnOk result (calls.new.items ≡ []) }
        ensures cut { OnErr result (calls.new.items ≢ []) }
    {
        'calls: for _i in 0..calls.len() {
            answers.reserve(1)?;
            let Some(call) = calls.pop_front() else {
                break;
            };
            let answer = self.answer_to(alloc, servers, call);
            answers.push(answer).unwrap();
        }
        Ok(())
    }
}
