//! Pieces of text.

ghost use Rattle.std.specs.Prelude.{◌≡◌, ◌++◌, ◌-◌, OnOk, decimal, length, replicate};
ghost use Rattle.hg_show.specs.Pieces.{before_blanks, behind_blanks};

use std::alloc::{AllocError, Global};

/// Appends a text.
pub(crate) fn push(out: &mut Vec<u8>, text: &str) -> Result<(), AllocError>
    ensures { OnOk result (out.new.items ≡ out.old.items ++ text.now) }
{
    out.extend_from_slice(text.as_bytes())
}

/// Appends a number.
pub(crate) fn push_number(out: &mut Vec<u8>, n: u64) -> Result<(), AllocError>
    ensures { OnOk result (out.new.items ≡ out.old.items ++ decimal n) }
{
    let mut digits = itoa::Buffer::new();
    push(out, digits.format(n))
}

/// Appends a word and a number behind it.
pub(crate) fn push_count(out: &mut Vec<u8>, word: &str, n: u64) -> Result<(), AllocError>
    ensures { OnOk result (out.new.items ≡ out.old.items ++ word.now ++ decimal n) }
{
    push(out, word)?;
    push_number(out, n)
}

/// Appends so many blanks.
fn push_blanks(out: &mut Vec<u8>, n: usize) -> Result<(), AllocError>
    ensures { OnOk result (out.new.items ≡ out.old.items ++ replicate n 32) }
{
    for _i in 0..n {
        out.push(b' ')?;
    }
    Ok(())
}

/// Appends a text with blanks before it, up to a width.
#[tactic(auto, unfolding(crate::specs::Pieces::behind_blanks))]
pub(crate) fn push_behind_blanks(
    out: &mut Vec<u8>,
    width: usize,
    text: &[u8],
) -> Result<(), AllocError>
    ensures { OnOk result (out.new.items ≡ out.old.items ++ behind_blanks width text.now) }
{
    push_blanks(out, width.saturating_sub(text.len()))?;
    out.extend_from_slice(text)
}

/// Appends a text with blanks behind it, up to a width.
#[tactic(auto, unfolding(crate::specs::Pieces::before_blanks))]
pub(crate) fn push_before_blanks(
    out: &mut Vec<u8>,
    width: usize,
    text: &[u8],
) -> Result<(), AllocError>
    ensures { OnOk result (out.new.items ≡ out.old.items ++ before_blanks width text.now) }
{
    out.extend_from_slice(text)?;
    push_blanks(out, width.saturating_sub(text.len()))
}
