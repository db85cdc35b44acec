//! The errors that servers answered, each with the position of its command.
ghost use Rattle.std.specs.Prelude.{◌≡◌, ◌∷◌, [], IfOk};
ghost use Rattle.resp_core.specs.View.{error_text};
ghost use Rattle.resp_core.specs.Refused.{error_at, errors_at};

use crate::errors::server_error::ServerError;
use std::alloc::{AllocError, Global};

/// The one error of a call that is no pipeline.
pub(crate) fn only_error(
    alloc: Global,
    e: ServerError,
) -> Result<Vec<(usize, ServerError)>, AllocError>
    ensures { IfOk result (λ errors. errors_at errors.items ≡ (0, error_text e) ∷ []) }
{
    let mut errors = Vec::new(alloc);
    errors.push((0, e))?;
    Ok(errors)
}

/// The first error, and those behind it.
pub(crate) fn with_first(
    first: (usize, ServerError),
    mut more: Vec<(usize, ServerError)>,
) -> Result<Vec<(usize, ServerError)>, AllocError>
    ensures { IfOk result (λ errors. errors_at errors.items ≡ error_at first ∷ errors_at more.items) }
{
    more.insert(0, first)?;
    Ok(more)
}
