//! A text's parts between its dots: the numbers of a place and of a handle.

ghost use Rattle.std.specs.Prelude.{◌≡◌, ◌≤◌, ◌<◌, ◌∷◌, []};
ghost use Rattle.std.specs.Prelude.{position, Ok, Err, IfOk, IfSome, length};
ghost use Rattle.std.specs.Prelude.{MatchOption, MatchResult};
ghost use Rattle.hg_trace.specs.Handles.{is_dot, parts_of, place_in, generation_in};
ghost use Rattle.hg_trace.specs.Handles.{place_of, handle_of};
ghost use Rattle.hg_trace.specs.Operands.{number_operand, no_operand};

use crate::fault::LineFault;
use crate::numbers::number_below;
use hg_place::{Handle, MAX_SEGMENTS, PAGE_PLACES, Place, SEGMENT_PAGES};
use std::marker::Model;

/// The parts that are left of a text.
#[derive(Drop)]
struct Parts<'a> {
    rest: Option<&'a [u8]>,
}

impl<'a> Model for Parts<'a> {
    ghost use Rattle.std.specs.Prelude.{ℕ, List, [], option_map, unwrap_or};
    ghost use Rattle.hg_trace.specs.Handles.{parts_of};

    ghost Value = { List (List ℕ) };

    ghost view = { λ parts. unwrap_or (option_map (λ rest. parts_of rest.now) parts.rest) [] };
}

impl<'a> Parts<'a> {
    fn new(text: &'a [u8]) -> Parts<'a>
        ensures { result ≡ parts_of text.now }
    {
        Parts { rest: Some(text) }
    }

    fn next_part(&mut self) -> Option<&'a [u8]>
        ensures { MatchOption result
            ((self.old ≡ []) × (self.new ≡ []))
            (λ part. self.old ≡ part.now ∷ self.new) }
    {
        let Some(rest) = self.rest else {
            return None;
        };
        match dot_in(rest) {
            Some(end) => {
                let (part, more) = rest.split_at(end);
                self.rest = Some(&more[1..]);
                Some(part)
            }
            None => {
                self.rest = None;
                Some(rest)
            }
        }
    }

    /// The next part, as a number below the limit.
    fn next_number(&mut self, limit: u64) -> Result<u64, LineFault>
        ensures number { MatchResult result
            (λ n. number_operand limit self.old ≡ Ok (n, self.new))
            (λ fault. number_operand limit self.old ≡ Err fault) }
        ensures below { IfOk result (λ n. n < limit) }
    {
        let part = self.next_part().ok_or(LineFault::Operand)?;
        number_below(part, limit).ok_or(LineFault::Operand)
    }

    #[tactic(auto, unfolding(crate::specs::Handles::place_in))]
    fn next_place(&mut self) -> Result<Place, LineFault>
        ensures { MatchResult result
            (λ place. place_in self.old ≡ Ok (place, self.new))
            (λ fault. place_in self.old ≡ Err fault) }
    {
        let segment = self.next_number(MAX_SEGMENTS as u64)?;
        let page = self.next_number(SEGMENT_PAGES as u64)?;
        let index = self.next_number(PAGE_PLACES as u64)?;
        Ok(Place {
            segment: segment as u8,
            page: page as u8,
            index: index as u16,
        })
    }

    #[tactic(auto, unfolding(crate::specs::Handles::generation_in))]
    fn next_generation(&mut self) -> Result<u32, LineFault>
        ensures generation { MatchResult result
            (λ generation. generation_in self.old ≡ Ok (generation, self.new))
            (λ fault. generation_in self.old ≡ Err fault) }
        ensures some { IfOk result (λ generation. 1 ≤ generation) }
    {
        match self.next_number(1 << 32)? {
            0 => Err(LineFault::Operand),
            generation => Ok(generation as u32),
        }
    }

    fn ends(&mut self) -> Result<(), LineFault>
        ensures { result ≡ no_operand self.old }
    {
        match self.next_part() {
            None => Ok(()),
            Some(_) => Err(LineFault::Operand),
        }
    }
}

/// Where the first dot stands.
fn dot_in(text: &[u8]) -> Option<usize>
    ensures first { result ≡ position is_dot text.now }
    ensures within { IfSome result (λ end. end < length text.now) }
{
    text.iter().position(|b| *b == b'.')
}

/// The place that a text is.
#[tactic(auto, unfolding(crate::specs::Handles::place_of))]
pub(crate) fn place_of(text: &[u8]) -> Result<Place, LineFault>
    ensures { result ≡ place_of text.now }
{
    let mut parts = Parts::new(text);
    let place = parts.next_place()?;
    parts.ends()?;
    Ok(place)
}

/// The handle that the text behind an `@` is.
#[tactic(auto, unfolding(crate::specs::Handles::handle_of))]
pub(crate) fn handle_of(text: &[u8]) -> Result<Handle, LineFault>
    ensures { result ≡ handle_of text.now }
{
    let mut parts = Parts::new(text);
    let place = parts.next_place()?;
    let generation = parts.next_generation()?;
    parts.ends()?;
    Ok(Handle { place, generation })
}
