//! The limit of levels of a session.
ghost use Rattle.std.specs.Prelude.{◌≡◌, ◌<◌, ◌≤◌, option_map, unwrap_or};

use cluster_client::LEVELS;

/// How deep values may nest: a limit that each link takes.
#[derive(Clone, Copy, Debug)]
pub(super) struct Levels {
    pub limit: u16,
    ghost some: { 0 < limit },
    ghost most: { limit ≤ 512 },
}

impl Levels {
    /// The limit that a line has set; without such a line it is `LEVELS`.
    pub fn or_usual(set: Option<Levels>) -> Levels
        ensures { result.limit ≡ unwrap_or (option_map (λ levels. levels.limit) set) 100 }
    {
        match set {
            Some(levels) => levels,
            None => Levels { limit: LEVELS },
        }
    }
}
