//! Replies as the bytes that a server sends.
ghost use Rattle.std.specs.Prelude.{◌≡◌, ◌++◌, ◌⊎◌, true, false, IfOk, IfErr};
ghost use Rattle.resp_core.specs.View.{view};
ghost use Rattle.resp_core.specs.Grammar.{Spells};
ghost use Rattle.resp_core.specs.Written.{written, form, fits};
ghost use Rattle.resp_core.specs.declared.value.write.WriteError.TheVariants.{TooLarge, Memory};

mod counts;
mod fitting;
mod leaf;
mod line_test;
mod put;

use crate::parser::MOST_LEVELS;
use crate::value::Value;
use fitting::value_fits;
use put::put_value;
use std::alloc::AllocError;
use thiserror::Error;

/// The protocol that a connection speaks.
///
/// Source: the Redis serialization protocol specification, "RESP versions".
#[derive(Clone, Copy, Debug, PartialEq, Eq)]
pub enum Protocol {
    /// The one that a connection begins with. It has errors, numbers, texts, arrays and null alone.
    Resp2,
    /// The one that `HELLO 3` asks for.
    Resp3,
}

/// Why a reply is not written.
#[derive(Clone, Copy, Debug, PartialEq, Eq, Error)]
pub enum WriteError {
    /// It nests deeper than `MOST_LEVELS`, or has a part of 2^62 bytes or values or more.
    #[error("the reply is too large to be written")]
    TooLarge,
    /// Memory was refused.
    #[error("memory was refused")]
    Memory,
}

impl From<AllocError> for WriteError {
    ghost from_gives = { λ _ e. e ≡ Memory };

    fn from(_e: AllocError) -> WriteError {
        WriteError::Memory
    }
}

impl Value {
    /// Writes the reply behind the bytes of `out`, as a server sends it in the protocol.
    ///
    /// A parser reads it back, as itself in RESP3 where a parser made it. In RESP2 a map is an array
    /// of keys and values, a set or a push an array, a double, a big number or a verbatim text a bulk
    /// string, and a boolean 1 or 0; attributes are left out, and each CR and LF of an error is a space.
    ///
    /// It is refused by `TooLarge` exactly where the reply nests deeper than `MOST_LEVELS`, where the
    /// kind of a push and the value of an attribute stand one level below these, or has a part of 2^62
    /// bytes or values or more; and by `Memory` where the room of `out` can not grow. The bytes of `out`
    /// are then as they were. It takes memory for `out` alone.
    ///
    /// Source: the Redis serialization protocol specification.
    #[tactic(auto, using(crate::proofs::WrittenReads::written_is_read))]
    pub fn write(&self, out: &mut Vec<u8>, protocol: Protocol) -> Result<(), WriteError>
        ensures written { IfOk result
            (λ _. out.new.items ≡ out.old.items ++ written protocol (view self.now)) }
        ensures read { IfOk result
            (λ _. Spells 512 1 (written protocol (view self.now)) (form protocol (view self.now))) }
        ensures fits { IfOk result (λ _. fits protocol 512 (view self.now) ≡ true) }
        ensures unchanged { IfErr result (λ _. out.new.items ≡ out.old.items) }
        ensures refused { IfErr result (λ e. ((e ≡ TooLarge) × (fits protocol 512 (view self.now) ≡ false))
            ⊎ ((e ≡ Memory) × (fits protocol 512 (view self.now) ≡ true))) }
    {
        if !value_fits(self, protocol, MOST_LEVELS) {
            return Err(WriteError::TooLarge);
        }
        put_all(self, out, protocol)?;
        Ok(())
    }
}

fn put_all(value: &Value, out: &mut Vec<u8>, protocol: Protocol) -> Result<(), AllocError>
    ensures written { IfOk result
        (λ _. out.new.items ≡ out.old.items ++ written protocol (view value.now)) }
    ensures unchanged { IfErr result (λ _. out.new.items ≡ out.old.items) }
{
    let len = out.len();
    match put_value(value, protocol, out) {
        Ok(()) => Ok(()),
        Err(e) => {
            out.truncate(len);
            Err(e)
        }
    }
}
