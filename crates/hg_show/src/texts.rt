//! Lists of texts.

ghost use Rattle.std.specs.Prelude.{◌≡◌, ◌++◌, ◌∷◌, [], OnOk};
ghost use Rattle.std.specs.List.{flat_map};
ghost use Rattle.hg_show.specs.Texts.{behind_comma, texts_in, with_commas};
ghost use Rattle.hg_show.specs.Warnings.{warning};

use crate::push::push;
use std::alloc::{AllocError, Global};

/// One more text.
pub(crate) fn add(texts: &mut Vec<Vec<u8>>, text: Vec<u8>) -> Result<(), AllocError>
    ensures { OnOk result (texts_in texts.new.items
        ≡ texts_in texts.old.items ++ text.items ∷ []) }
{
    texts.push(text)?;
    Ok(())
}

/// Adds what is warned of a row of this kind and name, where it is to be told.
#[tactic(auto, unfolding(crate::specs::Warnings::warning))]
pub(crate) fn warn(
    alloc: Global,
    texts: &mut Vec<Vec<u8>>,
    warns: bool,
    kind: &str,
    name: &[u8],
    reason: &str,
) -> Result<(), AllocError>
    ensures { OnOk result (texts_in texts.new.items
        ≡ texts_in texts.old.items ++ warning warns kind.now name.now reason.now) }
{
    if warns {
        let mut text = Vec::new(alloc);
        push(&mut text, kind)?;
        text.extend_from_slice(name)?;
        push(&mut text, reason)?;
        add(texts, text)?;
    }
    Ok(())
}

/// Appends a text behind a comma.
fn push_behind_comma(out: &mut Vec<u8>, text: &[u8]) -> Result<(), AllocError>
    ensures { OnOk result (out.new.items ≡ out.old.items ++ behind_comma text.now) }
{
    push(out, ",")?;
    out.extend_from_slice(text)
}

/// Appends texts, each behind a comma.
fn push_behind_commas(out: &mut Vec<u8>, texts: &[Vec<u8>]) -> Result<(), AllocError>
    ensures { OnOk result (out.new.items
        ≡ out.old.items ++ flat_map behind_comma (texts_in texts.now)) }
{
    for text in texts {
        push_behind_comma(out, text.as_slice())?;
    }
    Ok(())
}

/// Appends texts with a comma between each and the next.
pub(crate) fn push_with_commas(out: &mut Vec<u8>, texts: &[Vec<u8>]) -> Result<(), AllocError>
    ensures { OnOk result (out.new.items ≡ out.old.items ++ with_commas (texts_in texts.now)) }
{
    match texts {
        [] => Ok(()),
        [first, others @ ..] => {
            out.extend_from_slice(first.as_slice())?;
            push_behind_commas(out, others)
        }
    }
}
