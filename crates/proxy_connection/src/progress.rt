//! How far a connection is.

/// What came of looking for a guest's next command.
#[derive(Clone, Copy, PartialEq, Eq, Debug)]
pub enum Progress {
    /// It is in the guest's queue, and there may be another one.
    Taken,
    /// More bytes are needed.
    Short,
    /// The guest's share has no room for it: the guest has to read first.
    Full,
    /// The guest has ended, or its bytes were no requests: nothing more is read of it.
    Ended,
    /// The proxy has no guest of that number.
    NoGuest,
}
