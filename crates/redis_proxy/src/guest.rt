//! What the program keeps of a guest.
use crate::ask::Ask;
use crate::frames::{put_end, put_frames};
use crate::talk::Talk;
use crate::waits::Waits;
use cluster_servers::Reply;
use proxy_connection::Progress;
use proxy_frontend::Frontend;
use resp_core::Protocol;
use std::alloc::{AllocError, Global};

/// The guests' connections, and what the proxy holds of them.
pub(crate) type Guests = Frontend<Talk, Ask, Reply>;

/// A guest, by its number in frames.
#[derive(Drop)]
pub(crate) struct Guest {
    /// Its number in the proxy; none where that let it go, and its number in frames is kept until the input
    /// ends it too.
    pub(crate) number: Option<usize>,
    /// Whether nothing more is taken from it.
    pub(crate) has_ended: bool,
    /// Bytes that did not go out yet.
    pub(crate) output: Vec<u8>,
}

impl Guest {
    pub(crate) fn new(alloc: Global, number: Option<usize>) -> Guest {
        Guest {
            number,
            has_ended: number.is_none(),
            output: Vec::new(alloc),
        }
    }

    /// Takes bytes that it sent.
    pub(crate) fn hear(&self, guests: &mut Guests, bytes: &[u8]) -> Result<(), AllocError> {
        match self.number {
            Some(number) if !self.has_ended => guests.hear(number, bytes),
            _ => Ok(()),
        }
    }

    /// Takes what the guest asked, as far as there is room; whether there was something to take.
    pub(crate) fn advance(
        &mut self,
        alloc: Global,
        guests: &mut Guests,
    ) -> Result<bool, AllocError> {
        let Some(number) = self.number else {
            return Ok(false);
        };
        let mut has_moved = false;
        for _ in 0..u64::MAX {
            if self.has_ended {
                break;
            }
            match guests.advance(alloc, number)? {
                Progress::Taken => has_moved = true,
                Progress::Short => break,
                Progress::Full if guests.held(number) > 0 => break,
                Progress::Full => {
                    let why = b"-ERR proxy: larger than a guest's share\r\n";
                    self.output.extend_from_slice(why)?;
                    self.has_ended = true;
                }
                Progress::Ended | Progress::NoGuest => self.has_ended = true,
            }
        }
        Ok(has_moved)
    }

    /// Whether it reads RESP3.
    pub(crate) fn speaks_three(&self, guests: &Guests) -> bool {
        let Some(number) = self.number else {
            return false;
        };
        match guests.translator(number) {
            Some(talk) => matches!(talk.protocol, Protocol::Resp3),
            None => false,
        }
    }

    /// Takes the replies that are there; whether others are owed still.
    pub(crate) fn read(&mut self, guests: &mut Guests) -> Result<bool, AllocError> {
        let Some(number) = self.number else {
            return Ok(false);
        };
        for _ in 0..u64::MAX {
            if !guests.write(number, &mut self.output)? {
                break;
            }
        }
        Ok(guests.held(number) > 0)
    }

    /// Whether nothing more is read of it, and all its replies are taken, or it was not let in.
    fn is_over(&self, guests: &Guests) -> bool {
        match self.number {
            Some(number) => self.has_ended && guests.held(number) == 0,
            None => !self.output.is_empty(),
        }
    }

    /// Moves what it is to read to the output; whether nothing follows.
    pub(crate) fn send(
        &mut self,
        guests: &Guests,
        place: usize,
        is_framed: bool,
        output: &mut Vec<u8>,
    ) -> Result<bool, AllocError> {
        let ends = self.is_over(guests);
        match u32::try_from(place) {
            Ok(number) if is_framed => {
                put_frames(output, number, &self.output)?;
                if ends {
                    put_end(output, number)?;
                }
            }
            _ => output.extend_from_slice(&self.output)?,
        }
        self.output.clear();
        Ok(ends)
    }

    /// Lets it go: what the proxy holds of it is dropped, and its number there is free.
    pub(crate) fn leave(&mut self, alloc: Global, guests: &mut Guests, waits: &mut Waits) {
        if let Some(number) = self.number.take() {
            waits.forget(number);
            guests.leave(alloc, number);
        }
    }
}
