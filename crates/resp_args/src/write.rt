//! What takes arguments.
ghost use Rattle.std.specs.Prelude.{◌≡◌, List, ℕ, [], ◌∷◌, ◌++◌, map, is_ok, if◌then◌else◌};
ghost use Rattle.resp_args.specs.declared.cmd.Arg.{Arg};
ghost use Rattle.resp_args.specs.declared.cmd.Arg.TheVariants.{Simple};

use std::alloc::AllocError;

/// Takes arguments one by one.
///
/// Source: the documentation of the crate `redis`, `RedisWrite`.
pub trait RedisWrite {
    /// The arguments written so far, each bytes or a gap.
    ghost written: { Self → List (Arg (List ℕ)) };

    /// What stands beside the arguments.
    ghost Beside: { Type 0 };

    ghost beside: { Self → Beside };

    /// Appends one argument, and changes nothing beside it. It is refused only for want of memory,
    /// and then changes nothing.
    fn write_arg(&mut self, arg: &[u8]) -> Result<(), AllocError>
        ensures writes { written self.new
            ≡ (if is_ok result then written self.old ++ Simple arg.now ∷ [] else written self.old) }
        ensures keeps { beside self.new ≡ beside self.old };
}

impl RedisWrite for Vec<Vec<u8>> {
    ghost written = { λ v. map (λ a. Simple a.items) v.items };

    ghost Beside = { Unit {0} };

    ghost beside = { λ _. tt };

    fn write_arg(&mut self, arg: &[u8]) -> Result<(), AllocError> {
        let bytes = Vec::from_slice(*self.allocator(), arg)?;
        self.push(bytes)?;
        Ok(())
    }
}
