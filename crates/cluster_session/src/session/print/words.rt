//! Words of a printed line.
ghost use Rattle.std.specs.Prelude.{◌≡◌, ◌++◌, OnOk, string_bytes, decimal};
ghost use Rattle.cluster_session.specs.Printed.{hex_word};

use std::alloc::AllocError;

/// Appends a number in decimal.
pub(super) fn push_number(output: &mut String, number: u64) -> Result<(), AllocError>
    ensures { OnOk result (string_bytes output.new ≡ string_bytes output.old ++ decimal number) }
{
    write!(output, "{number}")
}

/// Appends bytes in lower case hexadecimal, `-` for none.
pub(super) fn push_bytes(output: &mut String, bytes: &[u8]) -> Result<(), AllocError>
    ensures { OnOk result (string_bytes output.new ≡ string_bytes output.old ++ hex_word bytes.now) }
{
    if bytes.is_empty() {
        return output.push_str("-");
    }
    let alloc = *output.allocator();
    output.push_str(hex::encode(alloc, bytes)?.as_str())
}

/// Appends a name, and bytes behind it.
pub(super) fn print_bytes(output: &mut String, name: &str, bytes: &[u8]) -> Result<(), AllocError>
    ensures { OnOk result
        (string_bytes output.new ≡ string_bytes output.old ++ (name.now ++ hex_word bytes.now)) }
{
    output.push_str(name)?;
    push_bytes(output, bytes)
}

/// Appends a name, and a number behind it.
pub(super) fn print_count(output: &mut String, name: &str, count: usize) -> Result<(), AllocError>
    ensures { OnOk result (string_bytes output.new ≡ string_bytes output.old ++ (name.now ++ decimal count)) }
{
    output.push_str(name)?;
    push_number(output, count as u64)
}
