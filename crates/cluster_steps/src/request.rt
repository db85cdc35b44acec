//! A request: the arguments of a command, and where they go.

/// Arguments as they stand on the wire, and where they go.
#[derive(Drop)]
pub struct Request<To> {
    pub to: To,
    pub args: Vec<Vec<u8>>,
}
