//! Pieces of text.

ghost use Rattle.std.specs.Prelude.{◌≡◌, ◌++◌, OnOk, decimal};

use std::alloc::AllocError;

/// Appends a text.
pub(crate) fn push(out: &mut Vec<u8>, text: &str) -> Result<(), AllocError>
    ensures { OnOk result (out.new.items ≡ out.old.items ++ text.now) }
{
    out.extend_from_slice(text.as_bytes())
}

/// Appends a word and a number behind it.
pub(crate) fn push_count(out: &mut Vec<u8>, word: &str, n: u64) -> Result<(), AllocError>
    ensures { OnOk result (out.new.items ≡ out.old.items ++ word.now ++ decimal n) }
{
    let mut digits = itoa::Buffer::new();
    push(out, word)?;
    push(out, digits.format(n))
}
