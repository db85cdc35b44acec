//! How much a proxy holds.

/// Room in a proxy.
#[derive(Clone, Copy, Debug)]
pub struct Room {
    pub entries: usize,
    pub bytes: usize,
}

/// How much a proxy holds at most: of so many guests, and of each its share, which is its own whatever
/// the others hold.
#[derive(Clone, Copy, Debug)]
pub struct Limits {
    pub guests: usize,
    pub share: Room,
}
