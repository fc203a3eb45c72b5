//! Words of a line, and what they are as operands.

ghost use Rattle.std.specs.Prelude.{◌≡◌, ◌<◌, ◌^◌, ◌∷◌, [], not, position, Ok, Err, IfOk};
ghost use Rattle.std.specs.Prelude.{MatchOption, MatchResult};
ghost use Rattle.hg_place.specs.declared.geometry.TheConstants.{MAX_SEGMENTS};
ghost use Rattle.hg_trace.specs.Lines.{is_blank, split_words};
ghost use Rattle.hg_trace.specs.Operands.{name_operand, number_operand, label_operand, no_operand};
ghost use Rattle.hg_trace.specs.Handles.{place_operand};
ghost use Rattle.hg_trace.specs.Blocks.{block_operand};

use crate::blocks::block_of;
use crate::fault::LineFault;
use crate::handles::place_of;
use crate::labels::Labels;
use crate::line::BlockName;
use crate::lines::is_blank;
use crate::name::Name;
use crate::numbers::{number_below, parse_number};
use hg_place::{MAX_SEGMENTS, Place};
use std::marker::Model;

/// The words that are left of a line.
#[derive(Drop)]
pub(crate) struct Words<'a> {
    rest: &'a [u8],
}

impl<'a> Model for Words<'a> {
    ghost use Rattle.std.specs.Prelude.{ℕ, List};
    ghost use Rattle.hg_trace.specs.Lines.{split_words};

    ghost Value = { List (List ℕ) };

    ghost view = { λ words. split_words words.rest.now };
}

impl<'a> Words<'a> {
    pub(crate) fn new(text: &'a [u8]) -> Words<'a>
        ensures { result ≡ split_words text.now }
    {
        Words { rest: text }
    }

    pub(crate) fn next_word(&mut self) -> Option<&'a [u8]>
        ensures { MatchOption result
            ((self.old ≡ []) × (self.new ≡ []))
            (λ word. self.old ≡ word.now ∷ self.new) }
    {
        match word_start(self.rest) {
            Some(start) => {
                let word = &self.rest[start..];
                let end = word_end(word).unwrap_or(word.len());
                self.rest = &word[end..];
                Some(&word[..end])
            }
            None => {
                self.rest = &[];
                None
            }
        }
    }

    /// The next word, as a name.
    pub(crate) fn next_name(&mut self) -> Result<Name<'a>, LineFault>
        ensures { MatchResult result
            (λ name. name_operand self.old ≡ Ok (name, self.new))
            (λ fault. name_operand self.old ≡ Err fault) }
    {
        let Some(start) = word_start(self.rest) else {
            return Err(LineFault::Operand);
        };
        match Name::at_front(&self.rest[start..]) {
            Some((name, rest)) => {
                self.rest = rest;
                Ok(name)
            }
            None => Err(LineFault::Operand),
        }
    }

    /// The next word, as a number of at most 64 bits.
    pub(crate) fn next_number(&mut self) -> Result<u64, LineFault>
        ensures { MatchResult result
            (λ n. number_operand (2 ^ 64) self.old ≡ Ok (n, self.new))
            (λ fault. number_operand (2 ^ 64) self.old ≡ Err fault) }
    {
        let word = self.next_word().ok_or(LineFault::Operand)?;
        parse_number(word).ok_or(LineFault::Operand)
    }

    /// The next word, as a number below the limit.
    pub(crate) fn next_below(&mut self, limit: u64) -> Result<u64, LineFault>
        ensures number { MatchResult result
            (λ n. number_operand limit self.old ≡ Ok (n, self.new))
            (λ fault. number_operand limit self.old ≡ Err fault) }
        ensures below { IfOk result (λ n. n < limit) }
    {
        let word = self.next_word().ok_or(LineFault::Operand)?;
        number_below(word, limit).ok_or(LineFault::Operand)
    }

    /// The next word, as a segment.
    pub(crate) fn next_segment(&mut self) -> Result<u8, LineFault>
        ensures { MatchResult result
            (λ segment. number_operand MAX_SEGMENTS self.old ≡ Ok (segment, self.new))
            (λ fault. number_operand MAX_SEGMENTS self.old ≡ Err fault) }
    {
        let segment = self.next_below(MAX_SEGMENTS as u64)?;
        Ok(segment as u8)
    }

    /// The next word, as the index of a word in a block.
    pub(crate) fn next_index(&mut self) -> Result<u32, LineFault>
        ensures { MatchResult result
            (λ index. number_operand (2 ^ 32) self.old ≡ Ok (index, self.new))
            (λ fault. number_operand (2 ^ 32) self.old ≡ Err fault) }
    {
        let index = self.next_below(1 << 32)?;
        Ok(index as u32)
    }

    #[tactic(auto, unfolding(crate::specs::Handles::place_operand))]
    pub(crate) fn next_place(&mut self) -> Result<Place, LineFault>
        ensures { MatchResult result
            (λ place. place_operand self.old ≡ Ok (place, self.new))
            (λ fault. place_operand self.old ≡ Err fault) }
    {
        let word = self.next_word().ok_or(LineFault::Operand)?;
        place_of(word)
    }

    /// The next word, as a block, or none where it is a label that no earlier line gave.
    #[tactic(auto, unfolding(crate::specs::Blocks::block_operand))]
    pub(crate) fn next_block(&mut self, labels: &Labels) -> Result<Option<BlockName>, LineFault>
        ensures { MatchResult result
            (λ block. block_operand labels.now self.old ≡ Ok (block, self.new))
            (λ fault. block_operand labels.now self.old ≡ Err fault) }
    {
        let word = self.next_word().ok_or(LineFault::Operand)?;
        block_of(labels, word)
    }

    /// The words that are left, as nothing or the label that a line gives.
    #[tactic(auto, unfolding(crate::specs::Operands::label_operand))]
    pub(crate) fn last_label(&mut self) -> Result<Option<Name<'a>>, LineFault>
        ensures { result ≡ label_operand self.old }
    {
        match self.next_word() {
            None => Ok(None),
            Some(b"as") => {
                let label = self.next_name()?;
                self.ends()?;
                Ok(Some(label))
            }
            _ => Err(LineFault::Operand),
        }
    }

    /// No word is left.
    pub(crate) fn ends(&mut self) -> Result<(), LineFault>
        ensures { result ≡ no_operand self.old }
    {
        match self.next_word() {
            None => Ok(()),
            Some(_) => Err(LineFault::Operand),
        }
    }
}

/// Where the first word begins.
pub(crate) fn word_start(text: &[u8]) -> Option<usize>
    ensures { result ≡ position (λ b. not (is_blank b)) text.now }
{
    text.iter().position(|b| !is_blank(*b))
}

/// Where a word that stands at the front ends.
pub(crate) fn word_end(text: &[u8]) -> Option<usize>
    ensures { result ≡ position is_blank text.now }
{
    text.iter().position(|b| is_blank(*b))
}
