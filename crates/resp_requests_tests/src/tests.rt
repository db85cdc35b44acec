//! Requests as a Redis server answered them, whole and in pieces.
mod answers;
mod seen;
mod takes;
