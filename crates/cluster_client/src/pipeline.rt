//! Pipelines: commands that go to their nodes together.
mod each;
mod in_parts;
pub(crate) mod parts;
mod query;
pub(crate) mod reply;

ghost use Rattle.std.specs.Prelude.{◌≡◌, ◌≢◌, [], ◌∷◌, ◌++◌, false, is_ok, map, IfOk, if◌then◌else◌};
ghost use Rattle.resp_args.specs.Command.{new_command};
ghost use Rattle.resp_args.specs.declared.cmd.Arg.TheVariants.{Simple};
ghost use Rattle.cluster_calls.specs.Calls.Call.{Entry};
ghost use Rattle.cluster_calls.specs.Links.Building.{ignoring, with_args, with_last};

use cluster_routing::Direction;
use resp_args::{Cmd, ToRedisArgs, command};
use std::alloc::{AllocError, Global};
use std::marker::Model;

/// A command of a pipeline.
#[derive(Debug, Drop)]
pub struct PipelineCommand {
    /// The command.
    pub command: Cmd,
    /// Whether its reply is left out of the pipeline's answer.
    pub ignored: bool,
}

/// A command that is lent, with where it goes by no names that only read (`Direction::for_routable`).
#[derive(Clone, Copy)]
pub struct Directed<'a> {
    /// The command.
    pub command: &'a Cmd,
    /// Where it goes.
    pub direction: &'a Direction,
}

impl Model for PipelineCommand {
    ghost use Rattle.cluster_calls.specs.Calls.Call.{Entry};

    ghost Value = { Entry };

    ghost view = { λ c. record { command = c.command; ignored = c.ignored } };
}

/// Commands that go to the nodes of a cluster together: to each node its own in one write.
///
/// A contract sees it as the list of its commands, each with whether its reply is left out of the
/// answer. Source: the documentation of the crate `redis`, `ClusterPipeline`.
#[derive(Debug, Drop)]
pub struct ClusterPipeline {
    commands: Vec<PipelineCommand>,
}

impl Model for ClusterPipeline {
    ghost use Rattle.std.specs.Prelude.{List};
    ghost use Rattle.cluster_calls.specs.Calls.Call.{Entry};

    ghost Value = { List Entry };

    ghost view = { λ p. p.commands.items };
}

/// A pipeline without commands. It takes no memory.
///
/// Source: the documentation of the crate `redis`, `cluster_pipe`.
pub fn cluster_pipe(alloc: Global) -> ClusterPipeline
    ensures { result ≡ [] }
{
    ClusterPipeline::new(alloc)
}

impl ClusterPipeline {
    /// A pipeline without commands. It takes no memory.
    pub fn new(alloc: Global) -> ClusterPipeline
        ensures { result ≡ [] }
    {
        ClusterPipeline {
            commands: Vec::new(alloc),
        }
    }

    /// A pipeline without commands, with room for so many. It is refused only for want of memory.
    pub fn with_capacity(alloc: Global, capacity: usize) -> Result<ClusterPipeline, AllocError>
        ensures { IfOk result (λ p. p ≡ []) }
    {
        Ok(ClusterPipeline {
            commands: Vec::with_capacity(alloc, capacity)?,
        })
    }

    /// Appends a command, whose reply is part of the answer.
    ///
    /// It is refused only for want of memory, and then changes nothing.
    pub fn add_command(&mut self, command: Cmd) -> Result<(), AllocError>
        ensures { self.new ≡
            (if is_ok result then self.old ++ record { command = command; ignored = false } ∷ []
            else self.old) }
    {
        self.commands.push(PipelineCommand {
            command,
            ignored: false,
        })?;
        Ok(())
    }

    /// Begins a new command with this name, whose reply is part of the answer.
    ///
    /// It is refused only for want of memory, and then changes nothing.
    pub fn cmd(&mut self, alloc: Global, name: &str) -> Result<(), AllocError>
        ensures { self.new ≡ (if is_ok result then self.old
            ++ record { command = record new_command { args = Simple name.now ∷ [] }; ignored = false } ∷ []
            else self.old) }
    {
        self.add_command(command::cmd(alloc, name)?)
    }

    /// Appends the arguments of a value to the last command: none, one or several, as its type says.
    ///
    /// It is refused only for want of memory, and then changes nothing.
    pub fn arg<T: ToRedisArgs>(&mut self, arg: T) -> Result<(), AllocError>
    where
        T: Drop,
        requires { self.old ≢ [] }
        ensures { self.new ≡
            (if is_ok result then with_last (with_args (map Simple (T.args arg))) self.old else self.old) }
    {
        let last = self.commands.len() - 1;
        self.commands[last].command.arg(arg)
    }

    /// Leaves the reply of the last command out of the answer. A pipeline without commands stays as it
    /// is.
    pub fn ignore(&mut self)
        ensures { self.new ≡ with_last ignoring self.old }
    {
        let len = self.commands.len();
        if len > 0 {
            self.commands[len - 1].ignored = true;
        }
    }

    /// The commands in order.
    pub fn commands(&self) -> &[PipelineCommand]
        ensures { result.now ≡ self.now }
    {
        self.commands.as_slice()
    }
}
