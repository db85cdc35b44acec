//! Laws of equality of this crate's types. Each is the contract of a call that makes the one call that
//! it speaks of.
ghost use Rattle.std.specs.Prelude.{◌≡◌, ◌↔◌, true};
ghost use Rattle.resp_core.specs.View.{error_text, format_view, kind_view, push_view, view};

use crate::device::Refused;
use crate::errors::{Cause, ErrorKind, RetryMethod, ServerError, ServerErrorKind};
use crate::value::{Protocol, PushInfo, PushKind, Value, VerbatimFormat, WriteError};

/// Two values are equal where they are one tree. So two doubles are equal where their texts are: that of
/// no number equals itself, and `1.0` is not `1.00`.
pub fn equality_of_values(a: &Value, b: &Value) -> bool
    ensures { result ≡ true ↔ view a.now ≡ view b.now }
{
    a == b
}

/// Two formats are equal where they are the same, with the same name.
pub fn equality_of_formats(a: &VerbatimFormat, b: &VerbatimFormat) -> bool
    ensures { result ≡ true ↔ format_view a.now ≡ format_view b.now }
{
    a == b
}

/// Two kinds of pushes are equal where they are the same, with the same name.
pub fn equality_of_kinds(a: &PushKind, b: &PushKind) -> bool
    ensures { result ≡ true ↔ kind_view a.now ≡ kind_view b.now }
{
    a == b
}

/// Two pushes are equal where kind and values are.
pub fn equality_of_pushes(a: &PushInfo, b: &PushInfo) -> bool
    ensures { result ≡ true ↔ push_view a.now ≡ push_view b.now }
{
    a == b
}

/// Two errors of servers are equal where code and detail are, letter by letter.
pub fn equality_of_errors(a: &ServerError, b: &ServerError) -> bool
    ensures { result ≡ true ↔ error_text a.now ≡ error_text b.now }
{
    a == b
}

/// Two kinds of server errors are equal where they are the same.
pub fn equality_of_server_kinds(a: &ServerErrorKind, b: &ServerErrorKind) -> bool
    ensures { result ≡ true ↔ a.now ≡ b.now }
{
    a == b
}

/// Two kinds of refusals are equal where they are the same, with the same kind of server error.
pub fn equality_of_refusals(a: &ErrorKind, b: &ErrorKind) -> bool
    ensures { result ≡ true ↔ a.now ≡ b.now }
{
    a == b
}

/// Two causes are equal where they are the same.
pub fn equality_of_causes(a: &Cause, b: &Cause) -> bool
    ensures { result ≡ true ↔ a.now ≡ b.now }
{
    a == b
}

/// Two ways to try again are equal where they are the same.
pub fn equality_of_retries(a: &RetryMethod, b: &RetryMethod) -> bool
    ensures { result ≡ true ↔ a.now ≡ b.now }
{
    a == b
}

/// There is one refusal of a device, so that two are equal.
pub fn equality_of_refused_calls(a: &Refused, b: &Refused) -> bool
    ensures { result ≡ true ↔ a.now ≡ b.now }
{
    a == b
}

/// Two protocols are equal where they are the same.
pub fn equality_of_protocols(a: &Protocol, b: &Protocol) -> bool
    ensures { result ≡ true ↔ a.now ≡ b.now }
{
    a == b
}

/// Two refusals to write a reply are equal where they are the same.
pub fn equality_of_write_errors(a: &WriteError, b: &WriteError) -> bool
    ensures { result ≡ true ↔ a.now ≡ b.now }
{
    a == b
}
