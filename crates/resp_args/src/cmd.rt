//! A command: its arguments, the number in its gaps, and whether a reply is wanted.
ghost use Rattle.std.specs.Prelude.{◌≡◌, [], ◌∷◌, ◌++◌, Some, is_some, is_ok, map, IfOk, if◌then◌else◌};
ghost use Rattle.resp_args.specs.Packed.{packed, sent};

use crate::arguments::{ArgsIter, Arguments};
use crate::packing::pack;
use crate::to_args::ToRedisArgs;
use crate::wire::wire;
use crate::write::RedisWrite;
use std::alloc::{AllocError, Global};
use std::marker::Model;

/// An argument of a command: its bytes, or a gap that is sent as the cursor's number.
///
/// Source: the documentation of the crate `redis`, `Arg`.
#[derive(Clone, Copy, Debug, PartialEq, Eq)]
pub enum Arg<D> {
    /// The bytes of the argument.
    Simple(D),
    /// A gap: the decimal of the number that `cursor_arg` set last is sent in its place.
    Cursor,
}

/// A command that is being built.
///
/// A contract sees it as a `Command` of specs/Command.antt: the list of its arguments, the number
/// for its gaps, and whether no reply is wanted. It keeps the allocator that it was made with.
/// Source: the documentation of the crate `redis`, `Cmd`.
#[derive(Drop, Debug)]
pub struct Cmd {
    args: Arguments,
    cursor: Option<u64>,
    no_response: bool,
}

impl Model for Cmd {
    ghost use Rattle.resp_args.specs.Command.{Command};

    ghost Value = { Command };

    ghost view = { λ c. record { args = c.args; cursor = c.cursor; no_response = c.no_response } };
}

impl Cmd {
    ghost use Rattle.resp_args.specs.Command.{new_command};
    ghost use Rattle.resp_args.specs.declared.cmd.Arg.TheVariants.{Simple, Cursor};

    /// A command without arguments, which wants a reply. It takes no memory.
    pub fn new(alloc: Global) -> Cmd
        ensures { result ≡ new_command }
    {
        Cmd {
            args: Arguments::new(alloc),
            cursor: None,
            no_response: false,
        }
    }

    /// A command without arguments, with room for `arg_count` arguments of `size_of_args` bytes in
    /// all. It is refused only for want of memory.
    pub fn with_capacity(
        alloc: Global,
        arg_count: usize,
        size_of_args: usize,
    ) -> Result<Cmd, AllocError>
        ensures { IfOk result (λ c. c ≡ new_command) }
    {
        Ok(Cmd {
            args: Arguments::with_capacity(alloc, arg_count, size_of_args)?,
            cursor: None,
            no_response: false,
        })
    }

    /// An equal command. It is refused only for want of memory.
    pub fn clone(&self) -> Result<Cmd, AllocError>
        ensures { IfOk result (λ c. c ≡ self.now) }
    {
        Ok(Cmd {
            args: self.args.clone()?,
            cursor: self.cursor,
            no_response: self.no_response,
        })
    }

    /// Makes the command equal to a new one, and keeps its room.
    pub fn clear(&mut self)
        ensures { self.new ≡ new_command }
    {
        self.args.clear();
        self.cursor = None;
        self.no_response = false;
    }

    /// Appends the arguments of a value: none, one or several, as its type says.
    ///
    /// It is refused only for want of memory, and then changes nothing.
    pub fn arg<T: ToRedisArgs>(&mut self, arg: T) -> Result<(), AllocError>
    where
        T: Drop,
        ensures { self.new ≡
            (if is_ok result then record self.old { args = self.old.args ++ map Simple (T.args arg) }
            else self.old) }
    {
        let len = self.args.len();
        match arg.write_redis_args(&mut self.args) {
            Ok(()) => Ok(()),
            Err(e) => {
                self.args.truncate(len);
                Err(e)
            }
        }
    }

    /// Appends a gap, and sets the number that all gaps of the command are sent as.
    ///
    /// It is refused only for want of memory, and then changes nothing.
    pub fn cursor_arg(&mut self, cursor: u64) -> Result<(), AllocError>
        ensures { self.new ≡
            (if is_ok result then record self.old
            { args = self.old.args ++ Cursor ∷ []; cursor = Some cursor } else self.old) }
    {
        self.args.push_gap()?;
        self.cursor = Some(cursor);
        Ok(())
    }

    /// Whether the number of a cursor was set.
    pub fn in_scan_mode(&self) -> bool
        ensures { result ≡ is_some self.now.cursor }
    {
        self.cursor.is_some()
    }

    /// Says whether the server is to give no reply. It takes no memory.
    pub fn set_no_response(&mut self, no_response: bool) -> &mut Cmd
        ensures same { result.ghost_name ≡ self.entry.ghost_name }
        ensures set { result.now ≡ record self.old { no_response = no_response } }
    {
        self.no_response = no_response;
        self
    }

    /// Whether the server is to give no reply.
    pub fn is_no_response(&self) -> bool
        ensures { result ≡ self.now.no_response }
    {
        self.no_response
    }

    /// The arguments in order, each lent: bytes, or a gap. It takes no memory.
    pub fn args_iter(&self) -> ArgsIter<'_>
        ensures { result ≡ self.now.args }
    {
        self.args.iter()
    }

    /// The arguments as they stand on the wire: each gap is the decimal of the number set last.
    ///
    /// It is refused only for want of memory.
    pub fn wire_args(&self) -> Result<Vec<Vec<u8>>, AllocError>
        ensures { IfOk result (λ v. map (λ a. a.items) v.items ≡ sent self.now) }
    {
        wire(
            self.args.allocator(),
            self.args.iter(),
            self.cursor.unwrap_or(0),
        )
    }

    /// The bytes that the command is sent as. It is refused only for want of memory.
    ///
    /// Source: Redis serialization protocol specification, "Sending commands to a Redis server".
    pub fn get_packed_command(&self) -> Result<Vec<u8>, AllocError>
        ensures { IfOk result (λ v. v.items ≡ packed (sent self.now)) }
    {
        let mut out = Vec::new(self.args.allocator());
        self.write_packed_command(&mut out)?;
        Ok(out)
    }

    /// Appends the bytes that the command is sent as.
    ///
    /// It is refused only for want of memory, and then leaves the bytes of the buffer as they were.
    pub fn write_packed_command(&self, out: &mut Vec<u8>) -> Result<(), AllocError>
        ensures { out.new.items
            ≡ (if is_ok result then out.old.items ++ packed (sent self.now) else out.old.items) }
    {
        let len = out.len();
        match pack(out, &self.args, self.cursor.unwrap_or(0)) {
            Ok(()) => Ok(()),
            Err(e) => {
                out.truncate(len);
                Err(e)
            }
        }
    }
}

impl RedisWrite for Cmd {
    ghost use Rattle.resp_args.specs.declared.cmd.Arg.TheVariants.{Simple};
    ghost use Rattle.resp_args.specs.Command.{Command};

    ghost written = { λ c. c.args };

    ghost Beside = { Command };

    ghost beside = { λ c. record c { args = [] } };

    fn write_arg(&mut self, arg: &[u8]) -> Result<(), AllocError>
        ensures { self.new ≡
            (if is_ok result then record self.old { args = self.old.args ++ Simple arg.now ∷ [] }
            else self.old) }
    {
        self.args.write_arg(arg)
    }
}
