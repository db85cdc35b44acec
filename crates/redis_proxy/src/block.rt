//! Commands that wait for what is not there yet: what takes the same without waiting, and for how long.
use crate::way::{argument, argument_count, is_word};
use cluster_client::{Cmd, Routable, Value, command};
use std::alloc::{AllocError, Global};

/// How the command that does not wait is made of the one that does.
#[derive(Clone, Copy)]
enum Form {
    /// `WORD key.. timeout` becomes `OTHER count key.. END`, whose reply has the one item in so many lists.
    Keys(&'static str, u8),
    /// `WORD source destination .. timeout` becomes `OTHER source destination ..`.
    Last,
    /// `WORD timeout count key.. ..` becomes `OTHER count key.. ..`.
    First,
}

/// The words that wait, their others, and how many arguments each has at least, with the word; one with a
/// destination has no more.
const WORDS: [(&str, &str, Form, usize); 8] = [
    ("BLPOP", "LMPOP", Form::Keys("LEFT", 1), 3),
    ("BRPOP", "LMPOP", Form::Keys("RIGHT", 1), 3),
    ("BZPOPMIN", "ZMPOP", Form::Keys("MIN", 2), 3),
    ("BZPOPMAX", "ZMPOP", Form::Keys("MAX", 2), 3),
    ("BLMOVE", "LMOVE", Form::Last, 6),
    ("BRPOPLPUSH", "RPOPLPUSH", Form::Last, 4),
    ("BLMPOP", "LMPOP", Form::First, 5),
    ("BZMPOP", "ZMPOP", Form::First, 5),
];

/// A command that waits.
#[derive(Drop)]
pub(crate) struct Block {
    /// What takes the same where it is there, and waits for nothing.
    pub(crate) attempt: Cmd,
    /// How many lists in its reply give way to their items.
    pub(crate) depth: u8,
    /// In milliseconds; 0 is for ever.
    pub(crate) timeout: u64,
    /// Whether what is taken is put elsewhere.
    pub(crate) has_destination: bool,
    /// Whether it reads for a group of a stream.
    pub(crate) is_of_group: bool,
}

/// Why a command does not wait: the line that a server answers.
#[derive(Clone, Copy, Debug, PartialEq, Eq)]
pub(crate) enum BlockFault {
    Count,
    NoFloat,
    NoInteger,
    Negative,
    TooLong,
}

impl BlockFault {
    /// What a server answers, without the line's end.
    pub(crate) fn line(self, alloc: Global, command: &Cmd) -> Result<Vec<u8>, AllocError> {
        let text = match self {
            BlockFault::Count => return count_line(alloc, command),
            BlockFault::NoFloat => b"-ERR timeout is not a float or out of range".as_slice(),
            BlockFault::NoInteger => b"-ERR timeout is not an integer or out of range".as_slice(),
            BlockFault::Negative => b"-ERR timeout is negative".as_slice(),
            BlockFault::TooLong => b"-ERR timeout is out of range".as_slice(),
        };
        Vec::from_slice(alloc, text)
    }
}

fn count_line(alloc: Global, command: &Cmd) -> Result<Vec<u8>, AllocError> {
    let mut line = Vec::from_slice(alloc, b"-ERR wrong number of arguments for '")?;
    for byte in argument(command, 0) {
        line.push(byte.to_ascii_lowercase())?;
    }
    line.extend_from_slice(b"' command")?;
    Ok(line)
}

/// A time in seconds, in milliseconds: what is less than one counts as one.
fn milliseconds(text: &[u8]) -> Result<u64, BlockFault> {
    let mut total = 0u64;
    // What the next digit behind the point is worth, once there is a point.
    let mut worth = None::<u64>;
    let mut has_digit = false;
    let mut is_above = false;
    for byte in text {
        if *byte == b'.' && worth.is_none() {
            worth = Some(100);
            continue;
        }
        let digit = u64::from(byte.wrapping_sub(b'0'));
        if digit > 9 {
            return Err(BlockFault::NoFloat);
        }
        has_digit = true;
        match worth {
            None => total = total
                .saturating_mul(10)
                .saturating_add(digit.saturating_mul(1000)),
            Some(weight) => {
                total = total.saturating_add(digit.saturating_mul(weight));
                is_above = is_above || weight == 0 && digit > 0;
                worth = Some(weight / 10);
            }
        }
    }
    if !has_digit {
        return Err(BlockFault::NoFloat);
    }
    Ok(total.saturating_add(u64::from(is_above)))
}

/// A time in whole milliseconds.
fn whole_milliseconds(text: &[u8]) -> Result<u64, BlockFault> {
    match std::str::from_utf8(text) {
        Ok(text) => match text.parse::<u64>() {
            Ok(count) => Ok(count),
            Err(_) => Err(BlockFault::NoInteger),
        },
        Err(_) => Err(BlockFault::NoInteger),
    }
}

/// The time of a command, by the unit that its word takes.
fn timeout_of(text: &[u8], are_seconds: bool) -> Result<u64, BlockFault> {
    if text.first() == Some(&b'-') {
        return Err(BlockFault::Negative);
    }
    let count = if are_seconds {
        milliseconds(text)?
    } else {
        whole_milliseconds(text)?
    };
    if count > u64::MAX / 4 {
        return Err(BlockFault::TooLong);
    }
    Ok(count)
}

/// Appends the arguments of a command from one place up to another.
fn copy_args(to: &mut Cmd, command: &Cmd, start: usize, end: usize) -> Result<(), AllocError> {
    for place in start..end {
        to.arg(argument(command, place))?;
    }
    Ok(())
}

/// What takes the same without waiting, of one of the words.
fn attempt_of(alloc: Global, command: &Cmd, other: &str, form: Form) -> Result<Cmd, AllocError> {
    let count = argument_count(command);
    let last = count.saturating_sub(1);
    let mut attempt = command::cmd(alloc, other)?;
    match form {
        Form::Keys(end, _) => {
            attempt.arg(last.saturating_sub(1))?;
            copy_args(&mut attempt, command, 1, last)?;
            attempt.arg(end)?;
        }
        Form::Last => copy_args(&mut attempt, command, 1, last)?,
        Form::First => copy_args(&mut attempt, command, 2, count)?,
    }
    Ok(attempt)
}

/// Whether so many arguments are what the form takes, whose least count this is.
fn has_args(form: Form, count: usize, least: usize) -> bool {
    match form {
        Form::Last => count == least,
        _ => count >= least,
    }
}

/// A command that begins with one of the words.
fn block_of_word(
    alloc: Global,
    command: &Cmd,
    other: &str,
    form: Form,
    least: usize,
) -> Result<Result<Block, BlockFault>, AllocError> {
    let count = argument_count(command);
    if !has_args(form, count, least) {
        return Ok(Err(BlockFault::Count));
    }
    let (place, depth) = match form {
        Form::Keys(_, depth) => (count.saturating_sub(1), depth),
        Form::Last => (count.saturating_sub(1), 0),
        Form::First => (1, 0),
    };
    let timeout = match timeout_of(argument(command, place), true) {
        Ok(timeout) => timeout,
        Err(fault) => return Ok(Err(fault)),
    };
    Ok(Ok(Block {
        attempt: attempt_of(alloc, command, other, form)?,
        depth,
        timeout,
        has_destination: matches!(form, Form::Last),
        is_of_group: false,
    }))
}

/// How many arguments an option of a read of streams takes, with its word; none what is no option, as `STREAMS`.
fn option_width(command: &Cmd, place: usize) -> usize {
    if is_word(command, place, b"BLOCK") || is_word(command, place, b"COUNT") {
        2
    } else if is_word(command, place, b"GROUP") {
        3
    } else if is_word(command, place, b"NOACK") {
        1
    } else {
        0
    }
}

/// The place of the last `BLOCK` among the options of a read of streams, which is the one that counts.
fn last_block(command: &Cmd) -> Option<usize> {
    let mut found = None;
    let mut place = 1usize;
    for _ in 0..argument_count(command) {
        if is_word(command, place, b"BLOCK") {
            found = Some(place);
        }
        match option_width(command, place) {
            0 => break,
            width => place = place.saturating_add(width),
        }
    }
    found
}

/// A read of streams without each `BLOCK` among its options.
fn without_blocks(alloc: Global, command: &Cmd) -> Result<Cmd, AllocError> {
    let count = argument_count(command);
    let mut attempt = Cmd::new(alloc);
    copy_args(&mut attempt, command, 0, 1)?;
    let mut place = 1usize;
    for _ in 0..count {
        let behind = place.saturating_add(option_width(command, place));
        if behind == place {
            break;
        }
        if !is_word(command, place, b"BLOCK") {
            copy_args(&mut attempt, command, place, behind.min(count))?;
        }
        place = behind;
    }
    copy_args(&mut attempt, command, place, count)?;
    Ok(attempt)
}

/// A read of streams that has `BLOCK` at a place.
fn block_of_read(
    alloc: Global,
    command: &Cmd,
    block: usize,
) -> Result<Result<Block, BlockFault>, AllocError> {
    let timeout = match timeout_of(argument(command, block.saturating_add(1)), false) {
        Ok(timeout) => timeout,
        Err(fault) => return Ok(Err(fault)),
    };
    Ok(Ok(Block {
        attempt: without_blocks(alloc, command)?,
        depth: 0,
        timeout,
        has_destination: false,
        is_of_group: is_word(command, 0, b"XREADGROUP"),
    }))
}

/// Whether a command waits for what is not there.
pub(crate) fn waits(command: &Cmd) -> bool {
    let Some(name) = command.arg_idx(0) else {
        return false;
    };
    for (word, ..) in &WORDS {
        if name.eq_ignore_ascii_case(word.as_bytes()) {
            return true;
        }
    }
    if !name.eq_ignore_ascii_case(b"XREAD") && !name.eq_ignore_ascii_case(b"XREADGROUP") {
        return false;
    }
    last_block(command).is_some()
}

impl Block {
    pub(crate) fn clone(&self) -> Result<Block, AllocError> {
        Ok(Block {
            attempt: self.attempt.clone()?,
            depth: self.depth,
            timeout: self.timeout,
            has_destination: self.has_destination,
            is_of_group: self.is_of_group,
        })
    }

    /// A command that waits, without its waiting; or why it can not wait.
    pub(crate) fn new(
        alloc: Global,
        command: &Cmd,
    ) -> Result<Result<Block, BlockFault>, AllocError> {
        for (word, other, form, least) in &WORDS {
            if is_word(command, 0, word.as_bytes()) {
                return block_of_word(alloc, command, other, *form, *least);
            }
        }
        match last_block(command) {
            Some(place) => block_of_read(alloc, command, place),
            None => Ok(Err(BlockFault::Count)),
        }
    }

    /// The reply that a guest reads, of that to the attempt.
    pub(crate) fn reply_of(&self, alloc: Global, reply: Value) -> Result<Value, AllocError> {
        flat_by(alloc, self.depth, reply)
    }
}

/// A reply in which so many lists give way to their items.
pub(crate) fn flat_by(alloc: Global, depth: u8, reply: Value) -> Result<Value, AllocError> {
    let mut told = reply;
    for _ in 0..depth {
        told = flat(alloc, told)?;
    }
    Ok(told)
}

/// A list in which the items of its lists stand in place of these.
fn flat(alloc: Global, value: Value) -> Result<Value, AllocError> {
    let Value::Array(items) = value else {
        return Ok(value);
    };
    let mut flat = Vec::new(alloc);
    for item in items {
        put_item(&mut flat, item)?;
    }
    Ok(Value::Array(flat))
}

fn put_item(to: &mut Vec<Value>, item: Value) -> Result<(), AllocError> {
    let Value::Array(items) = item else {
        to.push(item)?;
        return Ok(());
    };
    for one in items {
        to.push(one)?;
    }
    Ok(())
}
