//! Values that are read from a device.
use super::{Condition, Parser};
use crate::device::LinkRead;
use crate::errors::{Cause, RedisError};
use crate::value::Value;
use std::alloc::AllocError;

// The room for one read, in bytes.
const ROOM: usize = 4096;

// How many reads one value may take.
const READS: u64 = 1 << 32;

impl Parser {
    ghost use Rattle.std.specs.Prelude.{◌≡◌, ◌<◌, ◌+◌, ◌^◌, length, true, false, List, ℕ, [], ◌⊎◌, ◌↔◌, IfOk, IfErr, OnOk, OnErr, IsErrOf, ◌++◌};
    ghost use Rattle.resp_core.specs.View.{view};
    ghost use Rattle.resp_core.specs.Errors.{by_cause};
    ghost use Rattle.resp_core.specs.Standing.{Stands, level_limit, has_fault, is_starved, is_resting, BeginsUnfinished};
    ghost use Rattle.resp_core.specs.Incoming.{over, holding, Seeks, Stops, Meets, TakesNext, Goes, Loses, GoesUnfinished, LosesUnfinished};
    ghost use Rattle.resp_core.specs.declared.errors.redis_error.Cause.TheVariants.{Io, Parse, Memory};

    /// Takes the next value, reading from `reader` while none is whole.
    ///
    /// It refuses by `Cause::Io` where the bytes end early, a read is refused, or 2^32 reads gave
    /// no whole value, and keeps the bytes that it read; by `Cause::Parse` where the bytes begin
    /// with a fault; by `Cause::Memory` where memory was refused. After either of the last two it
    /// refuses so for good.
    pub fn parse_value<R: LinkRead>(&mut self, reader: &mut R) -> Result<Value, RedisError>
        ensures value { IfOk result (λ v. (allowed : ℕ) × TakesNext
            (over R.unread R.counts reader.old self.old (2 ^ 32))
            (over R.unread R.counts reader.new self.new allowed) (view v)) }
        ensures stops { IsErrOf result (by_cause Io) → (allowed : ℕ) × Goes Stops
            (over R.unread R.counts reader.old self.old (2 ^ 32))
            (over R.unread R.counts reader.new self.new allowed) }
        ensures meets { IsErrOf result (by_cause Parse) → (allowed : ℕ) × Goes Meets
            (over R.unread R.counts reader.old self.old (2 ^ 32))
            (over R.unread R.counts reader.new self.new allowed) }
        ensures starves { IsErrOf result (by_cause Memory) → (allowed : ℕ) × Loses
            (over R.unread R.counts reader.old self.old (2 ^ 32))
            (over R.unread R.counts reader.new self.new allowed) }
        ensures causes { IfErr result
            (λ e. (e ≡ by_cause Io) ⊎ (e ≡ by_cause Parse) ⊎ (e ≡ by_cause Memory)) }
        // A fault and a want of memory are told for good.
        ensures has_fault { IsErrOf result (by_cause Parse) ↔ (has_fault self.new ≡ true) }
        ensures is_starved { IsErrOf result (by_cause Memory) ↔ (is_starved self.new ≡ true) }
        ensures fault_stays { has_fault self.old ≡ true → IsErrOf result (by_cause Parse) }
        ensures starved_stays { is_starved self.old ≡ true → has_fault self.old ≡ false
            → IsErrOf result (by_cause Memory) }
        ensures limit { level_limit self.new ≡ level_limit self.old }
    {
        let mut allowed = READS;
        self.parse_within(reader, &mut allowed)
    }

    /// Takes the next value, as `parse_value` does, by `allowed` reads at most.
    ///
    /// It counts `allowed` down by the reads that it made.
    pub fn parse_within<R: LinkRead>(
        &mut self,
        reader: &mut R,
        allowed: &mut u64,
    ) -> Result<Value, RedisError>
        ensures value { IfOk result (λ v. TakesNext
            (over R.unread R.counts reader.old self.old allowed.old)
            (over R.unread R.counts reader.new self.new allowed.new) (view v)) }
        ensures stops { IsErrOf result (by_cause Io) → Goes Stops
            (over R.unread R.counts reader.old self.old allowed.old)
            (over R.unread R.counts reader.new self.new allowed.new) }
        ensures meets { IsErrOf result (by_cause Parse) → Goes Meets
            (over R.unread R.counts reader.old self.old allowed.old)
            (over R.unread R.counts reader.new self.new allowed.new) }
        ensures starves { IsErrOf result (by_cause Memory) → Loses
            (over R.unread R.counts reader.old self.old allowed.old)
            (over R.unread R.counts reader.new self.new allowed.new) }
        ensures causes { IfErr result
            (λ e. (e ≡ by_cause Io) ⊎ (e ≡ by_cause Parse) ⊎ (e ≡ by_cause Memory)) }
        // After a value none is half read.
        ensures rests { IfOk result (λ _. is_resting self.new ≡ true) }
        // A fault and a want of memory are told for good.
        ensures has_fault { IsErrOf result (by_cause Parse) ↔ (has_fault self.new ≡ true) }
        ensures is_starved { IsErrOf result (by_cause Memory) ↔ (is_starved self.new ≡ true) }
        ensures fault_stays { has_fault self.old ≡ true → IsErrOf result (by_cause Parse) }
        ensures starved_stays { is_starved self.old ≡ true → has_fault self.old ≡ false
            → IsErrOf result (by_cause Memory) }
        ensures limit { level_limit self.new ≡ level_limit self.old }
    {
        loop {
            if let Some(value) = self.take_value()? {
                return Ok(value);
            }
            self.read_more(reader, allowed)?;
        }
    }

    /// Reads behind what is held: once, and on into the same room while counted bytes are missing, since the
    /// value is unfinished until they are there.
    fn read_more<R: LinkRead>(
        &mut self,
        reader: &mut R,
        allowed: &mut u64,
    ) -> Result<(), RedisError>
        requires whole { has_fault self.old ≡ false }
        requires fed { is_starved self.old ≡ false }
        ensures more { OnOk result (GoesUnfinished Seeks
            (over R.unread R.counts reader.old self.old allowed.old)
            (over R.unread R.counts reader.new self.new allowed.new)) }
        ensures starves { IsErrOf result (by_cause Memory) → LosesUnfinished
            (over R.unread R.counts reader.old self.old allowed.old)
            (over R.unread R.counts reader.new self.new allowed.new) }
        ensures stops { IsErrOf result (by_cause Io) → GoesUnfinished Stops
            (over R.unread R.counts reader.old self.old allowed.old)
            (over R.unread R.counts reader.new self.new allowed.new) }
        ensures fewer { OnOk result (allowed.new < allowed.old) }
        ensures causes { IfErr result (λ e. (e ≡ by_cause Io) ⊎ (e ≡ by_cause Memory)) }
        ensures has_fault { has_fault self.new ≡ false }
        ensures limit { level_limit self.new ≡ level_limit self.old }
        ensures is_starved { IsErrOf result (by_cause Memory) ↔ (is_starved self.new ≡ true) }
    {
        let mut room = [0u8; ROOM];
        'reads: loop {
            self.read_into(reader, allowed, &mut room)?;
            if !self.lacks_bytes() {
                return Ok(());
            }
        }
    }

    /// One read, behind what is held.
    fn read_into<R: LinkRead>(
        &mut self,
        reader: &mut R,
        allowed: &mut u64,
        room: &mut [u8],
    ) -> Result<(), RedisError>
        requires whole { has_fault self.old ≡ false }
        requires fed { is_starved self.old ≡ false }
        requires room { length room.old ≡ 4096 }
        ensures more { OnOk result (GoesUnfinished Seeks
            (over R.unread R.counts reader.old self.old allowed.old)
            (over R.unread R.counts reader.new self.new allowed.new)) }
        ensures starves { IsErrOf result (by_cause Memory) → LosesUnfinished
            (over R.unread R.counts reader.old self.old allowed.old)
            (over R.unread R.counts reader.new self.new allowed.new) }
        ensures stops { IsErrOf result (by_cause Io) → (held : List ℕ)
            → BeginsUnfinished (level_limit self.old) held → Stands self.old held
            → Stops (holding (over R.unread R.counts reader.old self.old allowed.old) held)
            (holding (over R.unread R.counts reader.new self.new allowed.new) held) []
            × Stands self.new held }
        ensures fewer { OnOk result (allowed.new + 1 ≡ allowed.old) }
        ensures causes { IfErr result (λ e. (e ≡ by_cause Io) ⊎ (e ≡ by_cause Memory)) }
        ensures has_fault { has_fault self.new ≡ false }
        ensures limit { level_limit self.new ≡ level_limit self.old }
        ensures is_starved { IsErrOf result (by_cause Memory) ↔ (is_starved self.new ≡ true) }
        ensures is_fed { OnOk result (is_starved self.new ≡ false) }
        ensures same_room { length room.new ≡ 4096 }
    {
        if *allowed == 0 {
            return Err(RedisError::from(Cause::Io));
        }
        *allowed -= 1;
        match reader.read_some(room) {
            Ok(0) => Err(RedisError::from(Cause::Io)),
            Ok(n) => self.feed_or_starve(&room[..n]),
            Err(_) => Err(RedisError::from(Cause::Io)),
        }
    }

    /// Adds bytes. Where memory is refused, it refuses so from then on.
    fn feed_or_starve(&mut self, piece: &[u8]) -> Result<(), RedisError>
        requires whole { has_fault self.old ≡ false }
        requires fed { is_starved self.old ≡ false }
        ensures ok { OnOk result
            ((bytes : List ℕ) → Stands self.old bytes → Stands self.new (bytes ++ piece.now)) }
        ensures causes { IfErr result (λ e. e ≡ by_cause Memory) }
        ensures has_fault { has_fault self.new ≡ false }
        ensures limit { level_limit self.new ≡ level_limit self.old }
        ensures is_starved { OnErr result (is_starved self.new ≡ true) }
        ensures is_fed { OnOk result (is_starved self.new ≡ false) }
    {
        match self.feed(piece) {
            Ok(()) => Ok(()),
            Err(AllocError) => {
                self.condition = Condition::Starved;
                Err(RedisError::from(Cause::Memory))
            }
        }
    }
}
