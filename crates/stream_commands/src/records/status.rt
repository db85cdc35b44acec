//! What XDELEX and XACKDEL say of each id.
ghost use Rattle.std.specs.Prelude.{◌≡◌, false, None};
ghost use Rattle.resp_core.specs.View.{view};
ghost use Rattle.stream_commands.specs.StatusCodes.{acknowledgement_status, deletion_status, status};

use crate::records::one;
use resp_args::FromRedisValue;
use resp_core::{ParsingError, Value};
use std::alloc::Global;

/// What became of an entry that XDELEX was to delete.
#[derive(PartialEq, Eq, Drop, Debug)]
pub enum XDelExStatusCode {
    /// There was none of this id.
    IdNotFound = -1,
    /// It is deleted.
    Deleted = 1,
    /// It stays, as a group has not acknowledged it, or refers to it.
    NotDeletedUnacknowledgedOrStillReferenced = 2,
}

/// -1, 1 or 2. Another number is refused as `Invalid XDelExStatusCode status code: n`, another
/// reply as `Response type not XDelExStatusCode compatible`.
impl FromRedisValue for XDelExStatusCode {
    ghost use Rattle.stream_commands.specs.declared.records.status.XDelExStatusCode.{XDelExStatusCode};
    ghost use Rattle.stream_commands.specs.declared.records.status.XDelExStatusCode.TheVariants.{IdNotFound, Deleted, NotDeletedUnacknowledgedOrStillReferenced};

    ghost Meaning = { XDelExStatusCode };

    ghost meaning = { λ c. c };

    ghost same = { λ _ _. false };

    ghost convert = { status IdNotFound Deleted NotDeletedUnacknowledgedOrStillReferenced };

    ghost byte_item = { None };

    fn from_redis_value(alloc: Global, value: Value) -> Result<Self, ParsingError> {
        XDelExStatusCode::from_redis_value_ref(alloc, &value)
    }

    fn from_redis_value_ref(_alloc: Global, value: &Value) -> Result<Self, ParsingError> {
        deletion_status(value)
    }

    fn from_byte_vec(alloc: Global, bytes: Vec<u8>) -> Result<Vec<Self>, ParsingError> {
        let value = Self::from_redis_value(alloc, Value::BulkString(bytes))?;
        one(alloc, value)
    }
}

fn deletion_status(reply: &Value) -> Result<XDelExStatusCode, ParsingError>
    ensures { result ≡ deletion_status (view reply.now) }
{
    match reply {
        Value::Int(n) => {
            let code = *n;
            if code == XDelExStatusCode::IdNotFound as i64 {
                Ok(XDelExStatusCode::IdNotFound)
            } else if code == XDelExStatusCode::Deleted as i64 {
                Ok(XDelExStatusCode::Deleted)
            } else if code == XDelExStatusCode::NotDeletedUnacknowledgedOrStillReferenced as i64 {
                Ok(XDelExStatusCode::NotDeletedUnacknowledgedOrStillReferenced)
            } else {
                Err(ParsingError::numbered("Invalid XDelExStatusCode status code: ", code))
            }
        }
        _ => Err(ParsingError::fixed("Response type not XDelExStatusCode compatible")),
    }
}

/// What became of an entry that XACKDEL was to acknowledge and delete.
#[derive(PartialEq, Eq, Drop, Debug)]
pub enum XAckDelStatusCode {
    /// There was none of this id.
    IdNotFound = -1,
    /// It is acknowledged and deleted.
    AcknowledgedAndDeleted = 1,
    /// It is acknowledged and stays, as another group refers to it.
    AcknowledgedNotDeletedStillReferenced = 2,
}

/// -1, 1 or 2. Another number is refused as `Invalid XAckDelStatusCode status code: n`, another
/// reply as `Response type not XAckDelStatusCode compatible`.
impl FromRedisValue for XAckDelStatusCode {
    ghost use Rattle.stream_commands.specs.declared.records.status.XAckDelStatusCode.{XAckDelStatusCode};
    ghost use Rattle.stream_commands.specs.declared.records.status.XAckDelStatusCode.TheVariants.{IdNotFound, AcknowledgedAndDeleted, AcknowledgedNotDeletedStillReferenced};

    ghost Meaning = { XAckDelStatusCode };

    ghost meaning = { λ c. c };

    ghost same = { λ _ _. false };

    ghost convert = { status IdNotFound AcknowledgedAndDeleted AcknowledgedNotDeletedStillReferenced };

    ghost byte_item = { None };

    fn from_redis_value(alloc: Global, value: Value) -> Result<Self, ParsingError> {
        XAckDelStatusCode::from_redis_value_ref(alloc, &value)
    }

    fn from_redis_value_ref(_alloc: Global, value: &Value) -> Result<Self, ParsingError> {
        acknowledgement_status(value)
    }

    fn from_byte_vec(alloc: Global, bytes: Vec<u8>) -> Result<Vec<Self>, ParsingError> {
        let value = Self::from_redis_value(alloc, Value::BulkString(bytes))?;
        one(alloc, value)
    }
}

fn acknowledgement_status(reply: &Value) -> Result<XAckDelStatusCode, ParsingError>
    ensures { result ≡ acknowledgement_status (view reply.now) }
{
    match reply {
        Value::Int(n) => {
            let code = *n;
            if code == XAckDelStatusCode::IdNotFound as i64 {
                Ok(XAckDelStatusCode::IdNotFound)
            } else if code == XAckDelStatusCode::AcknowledgedAndDeleted as i64 {
                Ok(XAckDelStatusCode::AcknowledgedAndDeleted)
            } else if code == XAckDelStatusCode::AcknowledgedNotDeletedStillReferenced as i64 {
                Ok(XAckDelStatusCode::AcknowledgedNotDeletedStillReferenced)
            } else {
                Err(ParsingError::numbered("Invalid XAckDelStatusCode status code: ", code))
            }
        }
        _ => Err(ParsingError::fixed("Response type not XAckDelStatusCode compatible")),
    }
}
