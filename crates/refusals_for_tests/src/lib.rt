//! What tests of refused memory share: a call that is refused is made once more.
#![tactic(auto)]

use std::alloc::{AllocError, Global};
use std::fmt::Debug;
use std::io::Print;
use std::test::Fail;

/// What a call answers. Where it is refused a line `refused CALL` is printed, and it is made once more.
pub fn again<T, E: Debug + Drop, F: FnMut() -> Result<T, E>, R: Print>(
    rt: &R,
    call: &str,
    mut ask: F,
) -> Result<T, Fail>
    requires { F.IsAlwaysCallable ask }
{
    match ask() {
        Ok(answer) => Ok(answer),
        Err(_) => {
            println!(rt; "refused {call}")?;
            Ok(ask()?)
        }
    }
}

/// The text of a value, in a call `format`.
pub fn shown<T: Debug, R: Print>(rt: &R, alloc: Global, value: &T) -> Result<String, Fail> {
    again(rt, "format", || text(alloc, value))
}

fn text<T: Debug>(alloc: Global, value: &T) -> Result<String, AllocError> {
    format!(in alloc; "{value:?}")
}
