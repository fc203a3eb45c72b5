//! The form of a name.

ghost use Rattle.std.specs.Prelude.{◌≡◌};
ghost use Rattle.std.specs.List.{list_all};
ghost use Rattle.toml.specs.View.{table_view};
ghost use Rattle.hg_policy_text.specs.Faults.{Gives};
ghost use Rattle.hg_policy_text.specs.NameForm.{is_name, is_name_byte, name_at};

use crate::fault::PolicyFault;
use crate::key::Key;
use crate::values::value_at;
use toml::Table;

/// Whether a word is 1 to 16 bytes of `a` to `z`, `0` to `9`, `_` and `-`, the first a letter.
pub fn is_name(word: &[u8]) -> bool
    ensures { result ≡ is_name word.now }
{
    match word {
        [] => false,
        [first, rest @ ..] => {
            first.is_ascii_lowercase() && rest.len() < 16 && are_name_bytes(rest)
        }
    }
}

fn are_name_bytes(bytes: &[u8]) -> bool
    ensures { result ≡ list_all is_name_byte bytes.now }
{
    bytes.iter().all(|b| is_name_byte(*b))
}

/// Whether a byte can stand in a name: `a` to `z`, `0` to `9`, `_` and `-`.
pub fn is_name_byte(b: u8) -> bool
    ensures { result ≡ is_name_byte b }
{
    // Nearly every byte of a name is a letter, so that is tried alone first.
    if b.is_ascii_lowercase() {
        return true;
    }
    matches!(b, b'0'..=b'9' | b'_' | b'-')
}

/// The name at a key.
#[tactic(auto, unfolding(crate::specs::NameForm::name_at))]
pub(crate) fn name<'a>(table: &'a Table, key: Key) -> Result<&'a str, PolicyFault>
    ensures { Gives (λ name. name.now) result (name_at key (table_view table.now)) }
{
    let value = value_at(table, key)?;
    match value.as_str() {
        Some(text) => {
            if is_name(text.as_bytes()) {
                Ok(text)
            } else {
                Err(PolicyFault::Kind(key))
            }
        }
        None => Err(PolicyFault::Kind(key)),
    }
}
