//! The program `play`: it plays a session from standard input and prints what came of it.
//!
//! Its status is 0 for a session that was played, 2 for an unreadable one, and 1 where a stream
//! failed or memory was refused. It reads no arguments, and writes nothing to standard error.
#![tactic(auto)]

mod laws;
mod session;

pub use laws::one_text;
use resp_link::{FromRead, FromWrite};
pub use session::run_session;
use std::io;
use std::process::ExitCode;

fn main(rt: HostRuntime) -> ExitCode {
    let mut reader = FromRead::new(rt.reader());
    let mut writer = FromWrite::new(io::writer(&rt));
    match run_session(rt.alloc(), &mut reader, &mut writer) {
        Ok(status) => ExitCode::from(status),
        Err(_) => ExitCode::FAILURE,
    }
}
