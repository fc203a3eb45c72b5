//! Names of tenants and arenas.

ghost use Rattle.std.specs.Prelude.{◌≡◌, IfSome, MatchOption, is_some, not, position};
ghost use Rattle.std.specs.Prelude.{length, drop, true, false};
ghost use Rattle.std.specs.List.{before_first};
ghost use Rattle.hg_policy_text.specs.NameForm.{is_name, is_name_byte};
ghost use Rattle.hg_trace.specs.Lines.{is_blank};
ghost use Rattle.hg_trace.specs.NameFront.{ends_word, fits_name};

use crate::lines::is_blank;
use hg_policy_text::{is_name, is_name_byte};
use std::marker::Model;

/// A name of 1 to 16 bytes, where it stands in the bytes of a trace.
#[derive(Drop)]
pub struct Name<'a> {
    text: &'a str,
}

impl<'a> Model for Name<'a> {
    ghost use Rattle.std.specs.Prelude.{ℕ, List};

    ghost Value = { List ℕ };

    ghost view = { λ name. name.text.now };
}

impl<'a> Name<'a> {
    /// The name whose bytes these are.
    fn taken(word: &'a [u8]) -> Name<'a>
        requires { is_name word.now ≡ true }
        ensures { result ≡ word.now }
    {
        // SAFETY: the bytes of a name are ASCII.
        let text = unsafe { str::from_utf8_unchecked(word) };
        Name { text }
    }

    /// A name that was taken before.
    pub(crate) fn known(text: &'a str) -> Name<'a>
        ensures { result ≡ text.now }
    {
        Name { text }
    }

    /// The name that a word is.
    pub(crate) fn of(word: &'a [u8]) -> Option<Name<'a>>
        ensures some { IfSome result (λ name. name ≡ word.now) }
        ensures cases { is_some result ≡ is_name word.now }
    {
        if !is_name(word) {
            return None;
        }
        Some(Name::taken(word))
    }

    /// The name that a text has up to its first blank, and what follows the name. Each byte is
    /// looked at once.
    pub(crate) fn at_front(text: &'a [u8]) -> Option<(Name<'a>, &'a [u8])>
        ensures { MatchOption result
            (is_name (before_first is_blank text.now) ≡ false)
            (λ found. (is_name found.0 ≡ true) × (found.0 ≡ before_first is_blank text.now)
            × (found.1.now ≡ drop (length found.0) text.now)) }
    {
        let end = name_end(text).unwrap_or(text.len());
        let (word, rest) = text.split_at(end);
        if !ends_word(rest) || !fits_name(word) {
            return None;
        }
        Some((Name::taken(word), rest))
    }

    pub fn as_str(&self) -> &'a str
        ensures { result.now ≡ self.now }
    {
        self.text
    }
}

/// Where the first byte stands that can't stand in a name.
fn name_end(text: &[u8]) -> Option<usize>
    ensures { result ≡ position (λ b. not (is_name_byte b)) text.now }
{
    text.iter().position(|b| !is_name_byte(*b))
}

/// Whether a word ends before this.
fn ends_word(rest: &[u8]) -> bool
    ensures { result ≡ ends_word rest.now }
{
    match rest {
        [] => true,
        [b, ..] => is_blank(*b),
    }
}

/// Whether bytes of a name are 1 to 16, the first a letter.
fn fits_name(word: &[u8]) -> bool
    ensures { result ≡ fits_name word.now }
{
    match word {
        [] => false,
        [first, rest @ ..] => first.is_ascii_lowercase() && rest.len() < 16,
    }
}
