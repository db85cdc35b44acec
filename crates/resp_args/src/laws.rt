//! Laws on arguments: each function does nothing, and its contract is a law.
ghost use Rattle.resp_args.specs.Laws.{AllPackedOnce, OneArgument, ReadsBack, PackedOnce};

use crate::from::FromRedisValue;
use crate::to_args::ToSingleRedisArg;

/// A value of a `ToSingleRedisArg` is written as exactly one argument.
pub fn one_argument<T: ToSingleRedisArg>()
    ensures { OneArgument T.args T.arg }
{}

/// Equal packed bytes come from equal arguments.
pub fn packed_once()
    ensures { PackedOnce }
{}

/// Equal bytes of commands, one packed after another, come from the same commands: what goes out to
/// a node tells which commands were sent.
pub fn all_packed_once()
    ensures { AllPackedOnce }
{}

/// A bulk of the argument of a truth value is read as that value.
pub fn bool_reads_back(value: bool)
    ensures { ReadsBack ⟦<bool as ToSingleRedisArg>⟧.arg ⟦<bool as FromRedisValue>⟧.convert
        ⟦<bool as FromRedisValue>⟧.meaning value }
{}

/// A bulk of the argument of a text is read as that text.
pub fn string_reads_back(value: &String)
    ensures { ReadsBack ⟦<String as ToSingleRedisArg>⟧.arg ⟦<String as FromRedisValue>⟧.convert
        ⟦<String as FromRedisValue>⟧.meaning value.now }
{}

/// A bulk of the argument of bytes is read as those bytes.
pub fn bytes_read_back(value: &Vec<u8>)
    ensures { ReadsBack ⟦<Vec<u8> as ToSingleRedisArg>⟧.arg ⟦<Vec<u8> as FromRedisValue>⟧.convert
        ⟦<Vec<u8> as FromRedisValue>⟧.meaning value.now }
{}

/// A bulk of the argument of a number is read as that number.
pub fn u8_reads_back(value: u8)
    ensures { ReadsBack ⟦<u8 as ToSingleRedisArg>⟧.arg ⟦<u8 as FromRedisValue>⟧.convert
        ⟦<u8 as FromRedisValue>⟧.meaning value }
{}

/// A bulk of the argument of a number is read as that number.
pub fn u16_reads_back(value: u16)
    ensures { ReadsBack ⟦<u16 as ToSingleRedisArg>⟧.arg ⟦<u16 as FromRedisValue>⟧.convert
        ⟦<u16 as FromRedisValue>⟧.meaning value }
{}

/// A bulk of the argument of a number is read as that number.
pub fn u32_reads_back(value: u32)
    ensures { ReadsBack ⟦<u32 as ToSingleRedisArg>⟧.arg ⟦<u32 as FromRedisValue>⟧.convert
        ⟦<u32 as FromRedisValue>⟧.meaning value }
{}

/// A bulk of the argument of a number is read as that number.
pub fn u64_reads_back(value: u64)
    ensures { ReadsBack ⟦<u64 as ToSingleRedisArg>⟧.arg ⟦<u64 as FromRedisValue>⟧.convert
        ⟦<u64 as FromRedisValue>⟧.meaning value }
{}

/// A bulk of the argument of a number is read as that number.
pub fn usize_reads_back(value: usize)
    ensures { ReadsBack ⟦<usize as ToSingleRedisArg>⟧.arg ⟦<usize as FromRedisValue>⟧.convert
        ⟦<usize as FromRedisValue>⟧.meaning value }
{}

/// A bulk of the argument of a number is read as that number.
pub fn i8_reads_back(value: i8)
    ensures { ReadsBack ⟦<i8 as ToSingleRedisArg>⟧.arg ⟦<i8 as FromRedisValue>⟧.convert
        ⟦<i8 as FromRedisValue>⟧.meaning value }
{}

/// A bulk of the argument of a number is read as that number.
pub fn i16_reads_back(value: i16)
    ensures { ReadsBack ⟦<i16 as ToSingleRedisArg>⟧.arg ⟦<i16 as FromRedisValue>⟧.convert
        ⟦<i16 as FromRedisValue>⟧.meaning value }
{}

/// A bulk of the argument of a number is read as that number.
pub fn i32_reads_back(value: i32)
    ensures { ReadsBack ⟦<i32 as ToSingleRedisArg>⟧.arg ⟦<i32 as FromRedisValue>⟧.convert
        ⟦<i32 as FromRedisValue>⟧.meaning value }
{}

/// A bulk of the argument of a number is read as that number.
pub fn i64_reads_back(value: i64)
    ensures { ReadsBack ⟦<i64 as ToSingleRedisArg>⟧.arg ⟦<i64 as FromRedisValue>⟧.convert
        ⟦<i64 as FromRedisValue>⟧.meaning value }
{}

/// A bulk of the argument of a number is read as that number.
pub fn isize_reads_back(value: isize)
    ensures { ReadsBack ⟦<isize as ToSingleRedisArg>⟧.arg ⟦<isize as FromRedisValue>⟧.convert
        ⟦<isize as FromRedisValue>⟧.meaning value }
{}
