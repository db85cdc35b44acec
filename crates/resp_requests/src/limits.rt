//! How large a request may be.
ghost use Rattle.std.specs.Prelude.{◌≡◌};

/// How large a request may be.
#[derive(Clone, Copy, Debug, PartialEq, Eq)]
pub struct Limits {
    /// How many arguments an array may announce.
    pub most_arguments: usize,
    /// How many bytes an argument of an array may have.
    pub longest_argument: usize,
    /// How many bytes a line may have before its end: an inline request, or a line with a number.
    pub longest_line: usize,
}

impl Limits {
    /// The limits of a Redis 7.0.15 server that is not set otherwise: 2^31 - 1 arguments, 512 MiB in an
    /// argument, 64 KiB in a line.
    pub fn of_redis() -> Limits
        ensures arguments { result.most_arguments ≡ 2147483647 }
        ensures argument { result.longest_argument ≡ 536870912 }
        ensures line { result.longest_line ≡ 65536 }
    {
        Limits {
            most_arguments: 2_147_483_647,
            longest_argument: 536_870_912,
            longest_line: 65_536,
        }
    }
}
