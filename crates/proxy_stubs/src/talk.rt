//! What guests say.
use crate::on_key::OnKey;
use proxy_connection::{Progress, Translator};
use proxy_core::Entry;
use resp_requests::Fault;
use std::alloc::{AllocError, Global};
use std::io;
use std::io::Print;

/// GET asks at a key, QUIT ends, and all else is answered in its place.
#[derive(Drop)]
pub struct Talk {
    has_ended: bool,
}

impl Talk {
    /// Before the first word.
    pub fn new() -> Talk {
        Talk { has_ended: false }
    }
}

impl Translator<OnKey, Vec<u8>> for Talk {
    ghost translates = { λ old words entry new. Unit {0} };

    ghost refuses = { λ talk fault reply. Unit {0} };

    ghost has_ended = { λ talk. talk.has_ended };

    fn translate(
        &mut self,
        alloc: Global,
        words: &[Vec<u8>],
    ) -> Result<Entry<OnKey, Vec<u8>>, AllocError> {
        let (Some(name), key) = (words.first(), words.get(1)) else {
            return Ok(Entry::Reads(Vec::new(alloc)));
        };
        if name.as_slice() == b"QUIT".as_slice() {
            let reply = Vec::from_slice(alloc, b"+OK\r\n")?;
            self.has_ended = true;
            return Ok(Entry::Reads(reply));
        }
        match key {
            Some(key) if name.as_slice() == b"GET".as_slice() && !key.is_empty() => {
                Ok(Entry::Waits(OnKey { key: key[0] }))
            }
            _ => Ok(Entry::Reads(Vec::from_slice(alloc, b"+PONG\r\n")?)),
        }
    }

    fn refuse(&self, alloc: Global, fault: Fault) -> Result<Vec<u8>, AllocError> {
        let mut line = Vec::from_slice(alloc, b"-ERR ")?;
        line.extend_from_slice(&fault.message(alloc)?)?;
        line.extend_from_slice(b"\r\n")?;
        Ok(line)
    }

    fn has_ended(&self) -> bool {
        self.has_ended
    }
}

/// Takes what a guest said while there may be more, nine times at most; tells where memory was refused.
pub fn take_in<R: Print, F: FnMut() -> Result<Progress, AllocError>>(
    rt: &R,
    mut advance: F,
) -> io::Result<()>
    requires { F.IsAlwaysCallable advance }
{
    for _ in 0..9 {
        match advance() {
            Ok(Progress::Taken) => {}
            Ok(_) => break,
            Err(AllocError) => println!(rt; "refused advance")?,
        }
    }
    Ok(())
}
