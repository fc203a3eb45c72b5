//! Handles and places as texts.

ghost use Rattle.std.specs.Prelude.{◌≡◌, ℕ, List, Some, IfSome, IsSomeAnd, Decides};
ghost use Rattle.hg_place.specs.declared.Handle.{Handle};
ghost use Rattle.hg_place.specs.Texts.{place_text, handle_text, IsHandleText, ReadsHandle};
ghost use Rattle.hg_place.specs.Texts.{IsNumberText, HasNumberFirst, BeginsPlainly};

use crate::geometry::{MAX_SEGMENTS, PAGE_PLACES, SEGMENT_PAGES};
use crate::{Handle, Place};
use std::error::Error;
use std::fmt;
use std::str::FromStr;

/// No handle is written so.
#[derive(Clone, Copy, Debug, PartialEq, Eq)]
pub struct NotAHandle;

impl fmt::Display for NotAHandle {
    ghost use Rattle.std.specs.Prelude.{codes};

    ghost output = { λ _. Some (codes "not a handle") };

    fn fmt<W: fmt::Write>(&self, f: &mut fmt::Formatter<W>) -> fmt::Result {
        write!(f, "not a handle")
    }
}

impl Error for NotAHandle {}

impl fmt::Display for Place {
    ghost output = { λ place. Some (place_text place) };

    /// Segment, page and index, with dots between them.
    fn fmt<W: fmt::Write>(&self, f: &mut fmt::Formatter<W>) -> fmt::Result {
        let segment = self.segment;
        let page = self.page;
        let index = self.index;
        write!(f, "{segment}.{page}.{index}")
    }
}

impl fmt::Display for Handle {
    ghost output = { λ handle. Some (handle_text handle) };

    /// `@`, the place, a dot and the generation.
    fn fmt<W: fmt::Write>(&self, f: &mut fmt::Formatter<W>) -> fmt::Result {
        let place = self.place;
        let generation = self.generation;
        write!(f, "@{place}.{generation}")
    }
}

impl FromStr for Handle {
    type Err = NotAHandle;

    ghost from_str_gives = { ReadsHandle };

    /// The handle that a text is, byte by byte as it is displayed: signs, leading zeros, blanks,
    /// numbers out of their ranges and the generation 0 are refused.
    fn from_str(text: &str) -> Result<Handle, NotAHandle> {
        handle_in(text).ok_or(NotAHandle)
    }
}

/// The handle that a text is.
fn handle_in(text: &str) -> Option<Handle>
    ensures is { IfSome result (λ handle. IsHandleText text.now handle) }
    ensures each { (handle : Handle) → IsHandleText text.now handle → result ≡ Some handle }
{
    let numbers = text.strip_prefix('@')?;
    let (segment, numbers) = number_first(numbers, MAX_SEGMENTS as u64)?;
    let (page, numbers) = number_first(numbers, SEGMENT_PAGES as u64)?;
    let (index, generation) = number_first(numbers, PAGE_PLACES as u64)?;
    let generation = number_in(generation, 1 << 32)?;
    if generation == 0 {
        return None;
    }
    let place = Place {
        segment: segment as u8,
        page: page as u8,
        index: index as u16,
    };
    let generation = generation as u32;
    Some(Handle { place, generation })
}

/// The number below the limit that stands before a text's first dot, and what stands behind that.
fn number_first(text: &str, limit: u64) -> Option<(u64, &str)>
    ensures is { IfSome result (λ it. HasNumberFirst limit text.now it.0 it.1.now) }
    ensures each { (n : ℕ) (rest : List ℕ) → HasNumberFirst limit text.now n rest
        → IsSomeAnd result (λ it. (it.0 ≡ n) × (it.1.now ≡ rest)) }
{
    let (number, rest) = text.split_once('.')?;
    Some((number_in(number, limit)?, rest))
}

/// The number below the limit that a text is, in decimal digits: no sign, and the first a 0 only
/// where it stands alone.
fn number_in(text: &str, limit: u64) -> Option<u64>
    ensures is { IfSome result (λ n. IsNumberText limit text.now n) }
    ensures each { (n : ℕ) → IsNumberText limit text.now n → result ≡ Some n }
{
    if !begins_plainly(text) {
        return None;
    }
    match text.parse::<u64>() {
        Ok(number) if number < limit => Some(number),
        _ => None,
    }
}

/// Whether a text begins with no `+`, and with a 0 only where that is all.
fn begins_plainly(text: &str) -> bool
    ensures { Decides result (BeginsPlainly text.now) }
{
    !matches!(text.as_bytes(), [b'+', ..] | [b'0', _, ..])
}
