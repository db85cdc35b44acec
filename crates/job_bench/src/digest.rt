//! A digest of all results.
use anyhow::Result;
use cluster_client::{RedisError, Value};
use resp_core::Protocol;
use std::alloc::Global;

/// A number that other results would make another one, and how many results went into it.
#[derive(Clone, Copy)]
pub struct Digest {
    state: u64,
    count: u64,
}

impl Digest {
    pub fn new() -> Digest {
        Digest {
            state: 0x9e37_79b9_7f4a_7c15,
            count: 0,
        }
    }

    pub fn value(&self) -> u64 {
        self.state
    }

    pub fn count(&self) -> u64 {
        self.count
    }

    fn mix(&mut self, word: u64) {
        let mixed = (self.state ^ word).wrapping_mul(0xff51_afd7_ed55_8ccd);
        self.state = mixed ^ (mixed >> 29);
    }

    pub fn number(&mut self, number: u64) {
        self.count = self.count.wrapping_add(1);
        self.mix(number);
    }

    pub fn bytes(&mut self, bytes: &[u8]) {
        self.number(bytes.len() as u64);
        for some in bytes.chunks(8) {
            self.mix(word_of(some));
        }
    }

    pub fn optional(&mut self, bytes: Option<&[u8]>) {
        match bytes {
            Some(bytes) => self.bytes(bytes),
            None => self.number(u64::MAX),
        }
    }

    pub fn reply(&mut self, alloc: Global, value: &Value) -> Result<()> {
        match value {
            Value::Nil => self.number(u64::MAX),
            Value::Okay => self.number(1),
            Value::BulkString(bytes) => self.bytes(bytes),
            other => {
                let mut bytes = Vec::new(alloc);
                if other.write(&mut bytes, Protocol::Resp3).is_err() {
                    self.number(2);
                }
                self.bytes(&bytes);
            }
        }
        Ok(())
    }

    pub fn outcome(&mut self, alloc: Global, outcome: &Result<Value, RedisError>) -> Result<()> {
        match outcome {
            Ok(value) => self.reply(alloc, value),
            Err(error) => {
                self.bytes(format!(in alloc; "{error}")?.as_bytes());
                Ok(())
            }
        }
    }
}

/// Up to eight bytes as a number.
fn word_of(bytes: &[u8]) -> u64 {
    match bytes {
        [a, b, c, d, e, f, g, h] => u64::from_le_bytes([*a, *b, *c, *d, *e, *f, *g, *h]),
        few => {
            let mut word = 0u64;
            for byte in few {
                word = word.wrapping_mul(256).wrapping_add(u64::from(*byte));
            }
            word
        }
    }
}
