//! Replies without the attributes round them.
ghost use Rattle.std.specs.Prelude.{◌≡◌};
ghost use Rattle.resp_core.specs.View.{view};
ghost use Rattle.resp_args.specs.Convert.{plain};

use resp_core::Value;

/// Most values have no attributes, so the look at this one is made where it is called.
#[inline(always)]
pub(crate) fn into_plain(value: Value) -> Value
    ensures { view result ≡ plain (view value) }
{
    match value {
        Value::Attribute {
            inner,
            attributes: _,
        } => within(Box::into_inner(inner)),
        value => value,
    }
}

fn within(value: Value) -> Value
    ensures { view result ≡ plain (view value) }
{
    match value {
        Value::Attribute {
            inner,
            attributes: _,
        } => within(Box::into_inner(inner)),
        value => value,
    }
}

pub(crate) fn plain(value: &Value) -> &Value
    ensures { view result.now ≡ plain (view value.now) }
{
    match value {
        Value::Attribute {
            inner,
            attributes: _,
        } => plain(inner),
        value => value,
    }
}
