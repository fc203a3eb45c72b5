//! Words and numbers.

ghost use Rattle.std.specs.Prelude.{◌≡◌, ◌++◌, OnOk, decimal};

use std::alloc::AllocError;

/// Appends a text. Its one error is want of memory, and then the list may have a part of it.
pub fn push(out: &mut Vec<u8>, text: &str) -> Result<(), AllocError>
    ensures { OnOk result (out.new.items ≡ out.old.items ++ text.now) }
{
    out.extend_from_slice(text.as_bytes())
}

/// Appends a text and behind it a number, in decimal digits. Its one error is want of memory, and then
/// the list may have a part of both.
pub fn push_count(out: &mut Vec<u8>, text: &str, n: u64) -> Result<(), AllocError>
    ensures { OnOk result (out.new.items ≡ out.old.items ++ text.now ++ decimal n) }
{
    let mut digits = itoa::Buffer::new();
    push(out, text)?;
    push(out, digits.format(n))
}
