//! The ids of guests.

/// Ids for the guests of one of several programs that serve one cluster side by side: no other of them gives
/// the same.
#[derive(Clone, Copy)]
pub(crate) struct Ids {
    last: i64,
    step: i64,
}

impl Ids {
    /// The ids of the program of this number, from 0, of so many.
    pub(crate) fn new(number: u32, programs: u32) -> Ids {
        let step = i64::from(programs.max(1));
        Ids {
            last: i64::from(number).saturating_add(1).saturating_sub(step),
            step,
        }
    }

    /// The id of the next guest.
    pub(crate) fn take(&mut self) -> i64 {
        self.last = self.last.saturating_add(self.step);
        self.last
    }
}
