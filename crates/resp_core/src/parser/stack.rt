//! Rows within rows.
ghost use Rattle.std.specs.Prelude.{◌≡◌, ◌≤◌, ◌+◌, ◌-◌, ℕ, Some, Ok, length};
ghost use Rattle.resp_core.specs.Announced.{next_view};
ghost use Rattle.resp_core.specs.Reading.{follow, value_at};
ghost use Rattle.resp_core.specs.Table.{next};
ghost use Rattle.resp_core.specs.View.{view};
ghost use Rattle.resp_core.specs.Placing.{Settles, LeavesLine, SplitsIn};

use crate::parser::Head;
use crate::parser::announced::Announced;
use crate::parser::frame::{Frame, Opened, open_row};
use crate::parser::marker::Marker;
use crate::parser::stop::Stop;
use crate::value::Value;
use std::alloc::Global;

/// What a value or a line led to.
#[derive(Drop)]
pub(crate) enum Progress {
    /// The value that no row is left for.
    Whole(Value),
    /// What is read next.
    On(Head),
}

/// Puts a whole value into the innermost row, and what is whole by that into the next one, and so on.
#[inline(always)]
pub(crate) fn settle(alloc: Global, frames: &mut Vec<Frame>, value: Value) -> Result<Progress, Stop>
    ensures settles { (levels : ℕ)
        → Settles levels result (λ bs. Ok (view value, bs)) frames.old.items frames.new.items }
    ensures leaves_line { LeavesLine result }
    ensures levels { length frames.new.items ≤ length frames.old.items }
{
    let mut value = value;
    'frames: while frames.len() > 0 {
        let innermost = frames.len() - 1;
        match frames[innermost].put(alloc, value)? {
            None => return Ok(Progress::On(Head::Fresh)),
            Some(outer) => value = outer,
        }
        frames.truncate(innermost);
    }
    Ok(Progress::Whole(value))
}

/// Goes on behind a line.
pub(crate) fn enter(
    alloc: Global,
    frames: &mut Vec<Frame>,
    marker: Marker,
    announced: Announced,
) -> Result<Progress, Stop>
    requires { SplitsIn marker announced }
    ensures settles { (levels : ℕ) → Settles levels result
        (follow (value_at (levels - length frames.old.items - 1)) marker (Some (next_view announced)))
        frames.old.items frames.new.items }
    ensures leaves_line { LeavesLine result }
    ensures levels { length frames.new.items ≤ length frames.old.items + 1 }
{
    match announced {
        Announced::Whole(value) => settle(alloc, frames, value),
        Announced::Bytes(count) => Ok(Progress::On(Head::Bytes(marker, count))),
        Announced::Values(count) => match open_row(alloc, marker, count) {
            Opened::Whole(value) => settle(alloc, frames, value),
            Opened::Open(frame) => {
                frames.push(frame)?;
                Ok(Progress::On(Head::Fresh))
            }
        },
    }
}
