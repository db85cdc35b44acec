//! Arguments that stand one after another in one buffer.
ghost use Rattle.std.specs.Prelude.{◌≡◌, ◌+◌, ℕ, List, [], ◌∷◌, ◌++◌, vec_len, Option, None, Some, IfOk, is_ok, length, take, if◌then◌else◌};
ghost use Rattle.resp_args.specs.declared.cmd.Arg.{Arg};
ghost use Rattle.resp_args.specs.declared.cmd.Arg.TheVariants.{Simple, Cursor};
ghost use Rattle.resp_args.specs.Table.{Ascends, end_of};

use crate::cmd::Arg;
use crate::write::RedisWrite;
use std::alloc::{AllocError, AllocFailed, Global};
use std::marker::Model;

// How many bytes the first argument makes room for: those of a short command.
const FIRST_ROOM: usize = 40;

// The buffer holds the bytes of all arguments, and the table says where each ends, or that it is a gap.
#[derive(Drop, Debug)]
pub(crate) struct Arguments {
    buffer: Vec<u8>,
    ends: Vec<Arg<usize>>,
}

impl Model for Arguments {
    ghost use Rattle.std.specs.Prelude.{ℕ, List, length};
    ghost use Rattle.resp_args.specs.declared.cmd.Arg.{Arg};

    ghost Value = { List (Arg (List ℕ)) };

    ghost use Rattle.resp_args.specs.Table.{args_from, Ascends};

    ghost view = { λ c. args_from c.buffer.items 0 c.ends.items };

    ghost invariant = { λ c. Ascends 0 c.ends.items (length c.buffer.items) };
}

impl Arguments {
    pub(crate) fn new(alloc: Global) -> Arguments
        ensures { result ≡ [] }
    {
        Arguments {
            buffer: Vec::new(alloc),
            ends: Vec::new(alloc),
        }
    }

    pub(crate) fn with_capacity(
        alloc: Global,
        arg_count: usize,
        size_of_args: usize,
    ) -> Result<Arguments, AllocError>
        ensures { IfOk result (λ args. args ≡ []) }
    {
        Ok(Arguments {
            buffer: Vec::with_capacity(alloc, size_of_args)?,
            ends: Vec::with_capacity(alloc, arg_count)?,
        })
    }

    pub(crate) fn allocator(&self) -> Global {
        *self.buffer.allocator()
    }

    pub(crate) fn clone(&self) -> Result<Arguments, AllocError>
        ensures { IfOk result (λ args. args ≡ self.now) }
    {
        Ok(Arguments {
            buffer: Vec::from_slice(*self.buffer.allocator(), &self.buffer)?,
            ends: Vec::from_slice(*self.ends.allocator(), &self.ends)?,
        })
    }

    pub(crate) fn clear(&mut self)
        ensures { self.new ≡ [] }
    {
        self.buffer.clear();
        self.ends.clear();
    }

    pub(crate) fn len(&self) -> usize
        ensures { result ≡ length self.now }
    {
        self.ends.len()
    }

    /// How many bytes the arguments have in all; a gap has none.
    pub(crate) fn byte_count(&self) -> usize {
        self.buffer.len()
    }

    pub(crate) fn push_gap(&mut self) -> Result<(), AllocError>
        ensures { self.new ≡ (if is_ok result then self.old ++ Cursor ∷ [] else self.old) }
    {
        self.ends.push(Arg::Cursor)?;
        Ok(())
    }

    pub(crate) fn truncate(&mut self, len: usize)
        ensures { self.new ≡ take len self.old }
    {
        self.ends.truncate(len);
        let end = last_end(self.ends.as_slice());
        self.buffer.truncate(end);
    }

    pub(crate) fn iter(&self) -> ArgsIter<'_>
        ensures { result ≡ self.now }
    {
        ArgsIter {
            buffer: self.buffer.as_slice(),
            start: 0,
            ends: self.ends.as_slice(),
        }
    }
}

/// Where the last argument ends.
fn last_end(ends: &[Arg<usize>]) -> usize
    ensures { result ≡ end_of 0 ends.now }
{
    let mut last = 0;
    for end in ends {
        last = end_after(last, *end);
    }
    last
}

fn end_after(last: usize, end: Arg<usize>) -> usize
    ensures { result ≡ end_of last (end ∷ []) }
{
    match end {
        Arg::Simple(end) => end,
        Arg::Cursor => last,
    }
}

/// Appends bytes. Where the buffer takes no memory yet, it gets room for more than these.
fn append(buffer: &mut Vec<u8>, bytes: &[u8]) -> Result<(), AllocError>
    ensures items { buffer.new.items
        ≡ (if is_ok result then buffer.old.items ++ bytes.now else buffer.old.items) }
    ensures len { vec_len buffer.new
        ≡ (if is_ok result then vec_len buffer.old + length bytes.now else vec_len buffer.old) }
{
    if buffer.capacity() == 0 {
        buffer.reserve(bytes.len().max(FIRST_ROOM))?;
    }
    buffer.extend_from_slice(bytes)
}

impl RedisWrite for Arguments {
    ghost written = { λ c. c };

    ghost Beside = { Unit {0} };

    ghost beside = { λ _. tt };

    fn write_arg(&mut self, arg: &[u8]) -> Result<(), AllocError> {
        let len = self.buffer.len();
        append(&mut self.buffer, arg)?;
        let end = self.buffer.len();
        match self.ends.push(Arg::Simple(end)) {
            Ok(()) => Ok(()),
            Err(AllocFailed { .. }) => {
                self.buffer.truncate(len);
                Err(AllocError)
            }
        }
    }
}

/// The arguments of a command in turn, each lent from the command.
///
/// A contract sees it as the list of the arguments that are left.
#[derive(Drop)]
pub struct ArgsIter<'a> {
    buffer: &'a [u8],
    start: usize,
    ends: &'a [Arg<usize>],
}

impl<'a> Model for ArgsIter<'a> {
    ghost use Rattle.std.specs.Prelude.{ℕ, List, length};
    ghost use Rattle.resp_args.specs.declared.cmd.Arg.{Arg};

    ghost Value = { List (Arg (List ℕ)) };

    ghost use Rattle.resp_args.specs.Table.{args_from, Ascends};

    ghost view = { λ c. args_from c.buffer.now c.start c.ends.now };

    ghost invariant = { λ c. Ascends c.start c.ends.now (length c.buffer.now) };
}

impl<'a> ArgsIter<'a> {
    /// How many arguments are left.
    pub(crate) fn count_left(&self) -> usize {
        self.ends.len()
    }
}

impl<'a> Iterator for ArgsIter<'a> {
    type Item = Arg<&'a [u8]>;

    ghost use Rattle.std.specs.Iterator.{YieldsFirstBy, item_count};
    ghost use Rattle.resp_args.specs.Left.{shown};

    ghost next_gives = { YieldsFirstBy shown (λ left. left) };

    ghost remaining = { item_count (λ left. left) };

    fn next(&mut self) -> Option<Arg<&'a [u8]>> {
        let (first, rest) = self.ends.split_first()?;
        let first = *first;
        self.ends = rest;
        match first {
            Arg::Simple(end) => {
                let bytes = &self.buffer[self.start..end];
                self.start = end;
                Some(Arg::Simple(bytes))
            }
            Arg::Cursor => Some(Arg::Cursor),
        }
    }
}
