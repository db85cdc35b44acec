//! The law of equality of this crate's type. It is the contract of a call that makes the one call that
//! it speaks of.
ghost use Rattle.std.specs.Prelude.{◌≡◌, ◌↔◌, true};
ghost use Rattle.resp_args.specs.Left.{shown};

use crate::cmd::Arg;

/// Two arguments are equal where both are gaps, or both have the same bytes.
pub fn equality_of_args(a: &Arg<&[u8]>, b: &Arg<&[u8]>) -> bool
    ensures { result ≡ true ↔ shown a.now ≡ shown b.now }
{
    a == b
}
