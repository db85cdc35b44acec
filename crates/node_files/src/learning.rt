//! When a client's slot map is learnt anew.
use cluster_client::{Cause, RedisError};
use std::time::{Duration, Instant};

/// In the long run so many milliseconds pass between two looks for a map that is in doubt.
const PAUSE: u64 = 250;

/// So many milliseconds of such pauses may be left out at first.
const AHEAD: u64 = 750;

/// When a client asked for its slot map last, and whether a call met since then what a new map may mend.
#[derive(Clone, Copy, Drop)]
pub struct Learning {
    asked_at: Option<Instant>,
    /// When all pauses behind the looks so far are over.
    rested_at: Option<Instant>,
    is_in_doubt: bool,
}

impl Learning {
    /// Of a client that has not asked for a map.
    pub fn new() -> Learning {
        Learning {
            asked_at: None,
            rested_at: None,
            is_in_doubt: false,
        }
    }

    /// Takes note that a call met what a new map may mend.
    pub fn doubt(&mut self) {
        self.is_in_doubt = true;
    }

    /// Whether a call met that since the client asked for its map.
    pub fn is_in_doubt(&self) -> bool {
        self.is_in_doubt
    }

    /// Takes note that the client asks for its map now.
    pub fn note(&mut self, now: Instant) {
        self.rested_at = latest(self.rested_at, now).checked_add(Duration::from_millis(PAUSE));
        self.asked_at = Some(now);
        self.is_in_doubt = false;
    }

    /// Whether the client is to ask now: its map is in doubt, and it did not ask a few times in this second.
    pub fn is_due(&self, now: Instant) -> bool {
        let has_rested = match self.rested_at {
            Some(rested_at) => rested_at.duration_since(now) <= Duration::from_millis(AHEAD),
            None => true,
        };
        self.is_in_doubt && has_rested
    }

    /// Whether the client asked for its map so long ago, or never.
    pub fn is_older(&self, now: Instant, age: Duration) -> bool {
        match self.asked_at {
            Some(asked_at) => now.duration_since(asked_at) >= age,
            None => true,
        }
    }
}

/// The later of two times, of which there may be one.
fn latest(one: Option<Instant>, other: Instant) -> Instant {
    match one {
        Some(one) if one > other => one,
        _ => other,
    }
}

/// Whether a new slot map, or a new link, may mend an error: no node or no link was there, a link failed, or a node
/// told that it is a replica or that the cluster is down.
pub fn is_doubtful(error: &RedisError) -> bool {
    match error.cause() {
        Some(Cause::NoNode | Cause::NoLink | Cause::NotAsked | Cause::Io | Cause::Parse) => true,
        Some(_) => false,
        None => matches!(error.code(), Some("READONLY" | "CLUSTERDOWN")),
    }
}
