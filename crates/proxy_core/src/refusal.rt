//! Why a guest, or an entry, is not taken.

/// Why an entry is not taken.
#[derive(Clone, Copy, PartialEq, Eq, Debug)]
pub enum Refusal {
    /// No guest has that number.
    NoGuest,
    /// The guest's share has no room for it: the guest has to read first.
    Full,
    /// Memory was refused. The call may be made again.
    NoMemory,
}

/// An entry that was not taken, and why.
#[derive(Drop)]
pub struct Refused<T> {
    pub why: Refusal,
    pub value: T,
}

/// Why a guest is not let in.
#[derive(Clone, Copy, PartialEq, Eq, Debug)]
pub enum JoinRefusal {
    /// As many guests are there as may be.
    Full,
    /// Memory was refused. The call may be made again.
    NoMemory,
}
