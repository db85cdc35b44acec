//! Why no command is answered.
use crate::fault::Fault;

/// Why no command is answered.
#[derive(Clone, Copy, Debug, PartialEq, Eq)]
pub enum RequestError {
    /// The bytes are at fault, and nothing behind them is read.
    Protocol(Fault),
    /// Memory was refused. Nothing is lost, and the call may be made again.
    Memory,
}
