//! What became of a command that was asked.

/// Whether a command was done. Source of what is not done: the Redis Cluster specification, where a node
/// that answers MOVED or ASK does not serve the command.
#[derive(Clone, Copy, PartialEq, Eq, Debug)]
pub enum Fate {
    /// It was done, and its reply came.
    Answered,
    /// A server refused it without doing it: it is asked elsewhere, or later.
    Redirected,
    /// Nothing of it was written.
    NotAsked,
    /// It was written, and no reply came: it may have been done.
    Lost,
}

/// The fate of a command, and what its guest reads unless the command is asked again: the server's reply,
/// or an error.
#[derive(Drop)]
pub struct Outcome<V> {
    pub fate: Fate,
    pub reply: V,
}
