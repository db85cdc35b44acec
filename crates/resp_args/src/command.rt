//! A command by its name.
ghost use Rattle.std.specs.Prelude.{◌≡◌, [], ◌∷◌, IfOk};
ghost use Rattle.resp_args.specs.Command.{new_command};
ghost use Rattle.resp_args.specs.declared.cmd.Arg.TheVariants.{Simple};

use crate::cmd::Cmd;
use std::alloc::{AllocError, Global};

/// A new command whose one argument is the name. It is refused only for want of memory.
///
/// Source: the documentation of the crate `redis`, `cmd`.
pub fn cmd(alloc: Global, name: &str) -> Result<Cmd, AllocError>
    ensures { IfOk result (λ c. c ≡ record new_command { args = Simple name.now ∷ [] }) }
{
    let mut cmd = Cmd::new(alloc);
    cmd.arg(name)?;
    Ok(cmd)
}
