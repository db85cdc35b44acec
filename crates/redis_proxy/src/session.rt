//! Guests' bytes in, replies out.
use crate::cluster::Cluster;
use crate::frames::{CLOCK, first_frame, kept, put_alarm, put_end, put_ready, time_of};
use crate::guest::{Guest, Guests};
use crate::ids::Ids;
use crate::side::{LIMITS, MOST_GUESTS};
use crate::talk::Talk;
use anyhow::Result;
use cluster_client::ConnectionLike;
use node_files::Peer;
use proxy_frontend::Frontend;
use resp_requests::Limits;
use std::alloc::{AllocError, Global};
use std::mem;

/// The guests and the cluster.
#[derive(Drop)]
pub(crate) struct Session<L> {
    pub(crate) frontend: Guests,
    pub(crate) cluster: Cluster<L>,
    /// The nodes of the folder; the first is asked first for the slot map.
    pub(crate) peers: Vec<Peer>,
    /// The guests by their numbers in frames; a guest without frames is number 0.
    guests: Vec<Option<Guest>>,
    is_framed: bool,
    ids: Ids,
    /// Bytes of a frame that is not whole.
    frames: Vec<u8>,
    pub(crate) output: Vec<u8>,
    /// How many milliseconds behind its asking the clock is to tell the time, where it was asked to.
    alarm: Option<u32>,
    /// Whether it was said that the slot map is known.
    is_ready: bool,
}

/// So often the clock is to tell the time where nothing is awaited, and where a slot map is in doubt, in milliseconds.
const IDLE: u32 = 3000;

const IN_DOUBT: u32 = 250;

impl<L: ConnectionLike + Drop> Session<L> {
    pub(crate) fn new(
        alloc: Global,
        cluster: Cluster<L>,
        peers: Vec<Peer>,
        ids: Ids,
        is_framed: bool,
    ) -> Session<L> {
        Session {
            frontend: Frontend::new(alloc, LIMITS, Limits::of_redis()),
            cluster,
            peers,
            guests: Vec::new(alloc),
            is_framed,
            ids,
            frames: Vec::new(alloc),
            output: Vec::new(alloc),
            alarm: None,
            is_ready: false,
        }
    }

    /// Takes bytes of the input.
    pub(crate) fn take(&mut self, alloc: Global, bytes: &[u8]) -> Result<()> {
        if !self.is_framed {
            return self.feed(alloc, 0, bytes);
        }
        self.frames.extend_from_slice(bytes)?;
        let frames = mem::replace(&mut self.frames, Vec::new(alloc));
        let mut rest = frames.as_slice();
        for _ in 0..u64::MAX {
            let Some((frame, behind)) = first_frame(rest) else {
                break;
            };
            self.take_frame(alloc, frame.guest, frame.bytes)?;
            rest = behind;
        }
        self.frames = kept(alloc, rest)?;
        Ok(())
    }

    fn take_frame(&mut self, alloc: Global, number: u32, bytes: &[u8]) -> Result<()> {
        if number == CLOCK {
            self.alarm = None;
            if let Some(now) = time_of(bytes) {
                self.cluster.waits.tick(now);
            }
            return Ok(());
        }
        if !bytes.is_empty() {
            return self.feed(alloc, number as usize, bytes);
        }
        // Where the proxy let the guest go first, its end was told.
        let is_told = match self.take_out(number as usize) {
            Some(mut guest) => {
                let is_gone = guest.number.is_none();
                guest.leave(alloc, &mut self.frontend, &mut self.cluster.waits);
                is_gone
            }
            None => false,
        };
        if !is_told {
            put_end(&mut self.output, number)?;
        }
        Ok(())
    }

    /// Takes bytes of a guest, which is let in where it is new.
    fn feed(&mut self, alloc: Global, place: usize, bytes: &[u8]) -> Result<()> {
        if place >= MOST_GUESTS {
            return Ok(());
        }
        for _ in self.guests.len()..place.saturating_add(1) {
            self.guests.push(None)?;
        }
        if !self.has_guest(place) {
            let guest = self.let_in(alloc)?;
            self.put(place, guest);
        }
        if let Some(Some(guest)) = self.guests.get(place) {
            guest.hear(&mut self.frontend, bytes)?;
        }
        Ok(())
    }

    fn has_guest(&self, place: usize) -> bool {
        matches!(self.guests.get(place), Some(Some(_)))
    }

    fn put(&mut self, place: usize, guest: Guest) {
        if let Some(kept) = self.guests.get_mut(place) {
            *kept = Some(guest);
        }
    }

    /// A new guest; where there is no room for it one that reads so, and has ended.
    fn let_in(&mut self, alloc: Global) -> Result<Guest, AllocError> {
        let id = self.ids.take();
        let talk = Talk::new(alloc, id, self.is_framed, self.cluster.words.clone()?);
        let number = self.frontend.join(alloc, talk).ok();
        let mut guest = Guest::new(alloc, number);
        if guest.has_ended {
            guest
                .output
                .extend_from_slice(b"-ERR max number of clients reached\r\n")?;
        }
        Ok(guest)
    }

    /// Takes what all guests asked, as far as there is room; whether there was something to take.
    pub(crate) fn advance_all(&mut self, alloc: Global) -> Result<bool> {
        let Session {
            frontend,
            cluster,
            guests,
            ..
        } = self;
        let mut has_moved = false;
        for slot in guests.iter_mut() {
            if let Some(guest) = slot {
                has_moved |= guest.advance(alloc, frontend)?;
                cluster.three.is_used |= guest.speaks_three(frontend);
            }
        }
        Ok(has_moved)
    }

    fn take_out(&mut self, place: usize) -> Option<Guest> {
        match self.guests.get_mut(place) {
            Some(kept) => kept.take(),
            None => None,
        }
    }

    /// Takes the replies that are there; whether others are owed still.
    pub(crate) fn read_for_all(&mut self) -> Result<bool> {
        let Session {
            frontend,
            guests,
            ..
        } = self;
        let mut is_owed = false;
        for slot in guests.iter_mut() {
            if let Some(guest) = slot {
                is_owed |= guest.read(frontend)?;
            }
        }
        Ok(is_owed)
    }

    /// Moves what all guests are to read to the output, and lets those go of which nothing follows.
    pub(crate) fn send_all(&mut self, alloc: Global) -> Result<()> {
        let Session {
            frontend,
            cluster,
            guests,
            output,
            is_framed,
            ..
        } = self;
        for (place, slot) in guests.iter_mut().enumerate() {
            let Some(guest) = slot else {
                continue;
            };
            if guest.send(frontend, place, *is_framed, output)? {
                guest.leave(alloc, frontend, &mut cluster.waits);
            }
        }
        Ok(())
    }

    /// How soon the time is wanted: where guests wait, the later the more of them.
    fn delay(&self) -> u32 {
        let of_waits = match self.cluster.waits.count() {
            0 => IDLE,
            count => count.clamp(10, 1000) as u32,
        };
        if self.cluster.is_in_doubt() {
            of_waits.min(IN_DOUBT)
        } else {
            of_waits
        }
    }

    /// Asks the clock for the time, unless it was asked to tell it as soon.
    pub(crate) fn set_alarm(&mut self) -> Result<(), AllocError> {
        let delay = self.delay();
        let is_set = match self.alarm {
            Some(asked) => asked <= delay,
            None => false,
        };
        if is_set || !self.is_framed {
            return Ok(());
        }
        put_alarm(&mut self.output, delay)?;
        self.alarm = Some(delay);
        Ok(())
    }

    /// Says that the slot map is known, once it is.
    pub(crate) fn say_ready(&mut self) -> Result<(), AllocError> {
        if self.is_framed && self.cluster.two.has_map && !self.is_ready {
            put_ready(&mut self.output)?;
            self.is_ready = true;
        }
        Ok(())
    }

    /// Whether the one guest without frames has ended.
    pub(crate) fn has_ended(&self) -> bool {
        match self.guests.first() {
            Some(Some(guest)) => !self.is_framed && guest.number.is_none(),
            _ => false,
        }
    }
}
