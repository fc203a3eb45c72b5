//! Lines of bytes.

ghost use Rattle.std.specs.Prelude.{◌≡◌, ◌≤◌, ◌∷◌, ◌&&◌, [], length, drop};
ghost use Rattle.std.specs.Prelude.{MatchOption, position, not, true, false};
ghost use Rattle.std.specs.List.{list_all, concat, before_first, position_or_len};
ghost use Rattle.hg_trace.specs.Lines.{lines_of, before_comment, ends_line, ends_text, is_blank};
ghost use Rattle.hg_trace.specs.Lines.{is_allowed, is_hash, is_plain};

use memchr::memchr;
use std::marker::Model;

/// The lines that are left of some bytes. Where the next `#` stands is kept, so that lines with no
/// comment aren't searched for one.
#[derive(Drop)]
pub(crate) struct Lines<'a> {
    rest: &'a [u8],
    /// How many bytes stand before the next `#`, or how many are left where there is none.
    hash: usize,
}

impl<'a> Model for Lines<'a> {
    ghost use Rattle.std.specs.Prelude.{◌≡◌, ℕ, List};
    ghost use Rattle.std.specs.List.{position_or_len};
    ghost use Rattle.hg_trace.specs.Lines.{lines_of, is_hash};

    ghost Value = { List (List ℕ) };

    ghost view = { λ lines. lines_of lines.rest.now };

    ghost invariant = { λ lines. lines.hash ≡ position_or_len is_hash lines.rest.now };
}

/// A line, and the same without its comment and its end.
#[derive(Drop)]
pub(crate) struct Cut<'a> {
    line: &'a [u8],
    text: &'a [u8],
}

impl<'a> Model for Cut<'a> {
    ghost use Rattle.std.specs.Prelude.{◌≡◌, ℕ, List};
    ghost use Rattle.hg_trace.specs.Lines.{before_comment};

    ghost Value = { List ℕ };

    ghost view = { λ cut. cut.line.now };

    ghost invariant = { λ cut. cut.text.now ≡ before_comment cut.line.now };
}

impl<'a> Cut<'a> {
    /// A line whose text ends there.
    fn at(line: &'a [u8], end: usize) -> Cut<'a>
        requires { end ≡ position_or_len ends_text line.now }
        ensures { result ≡ line.now }
    {
        Cut {
            line,
            text: &line[..end],
        }
    }

    /// What is read of the line, unless it has a byte that can't stand there. Where its bytes are
    /// known to be plain none is looked at.
    pub(crate) fn text(self, plain: bool) -> Option<&'a [u8]>
        requires { plain ≡ true → list_all is_plain self ≡ true }
        ensures { MatchOption result
            (list_all is_allowed (before_comment self.entry) ≡ false)
            (λ text. (list_all is_allowed text.now ≡ true)
            × (text.now ≡ before_comment self.entry)) }
    {
        if plain {
            return Some(self.text);
        }
        clean_text(self.line)
    }

    /// The line without its comment and its end, whatever bytes it has.
    pub(crate) fn before_comment(self) -> &'a [u8]
        ensures { result.now ≡ before_comment self.entry }
    {
        self.text
    }
}

impl<'a> Lines<'a> {
    pub(crate) fn new(bytes: &'a [u8]) -> Lines<'a>
        ensures lines { result ≡ lines_of bytes.now }
        ensures few { length result ≤ length bytes.now }
    {
        Lines {
            rest: bytes,
            hash: hash_in(bytes),
        }
    }

    /// The next line, with its end.
    pub(crate) fn next_line(&mut self) -> Option<&'a [u8]>
        ensures { MatchOption result
            ((self.old ≡ []) × (self.new ≡ []))
            (λ line. self.old ≡ line.now ∷ self.new) }
    {
        match self.next_cut() {
            Some(cut) => Some(cut.line),
            None => None,
        }
    }

    /// The next line, and what is read of it.
    pub(crate) fn next_cut(&mut self) -> Option<Cut<'a>>
        ensures { MatchOption result
            ((self.old ≡ []) × (self.new ≡ []))
            (λ line. self.old ≡ line ∷ self.new) }
    {
        if self.rest.is_empty() {
            return None;
        }
        match line_end(self.rest) {
            Some(end) => {
                let hash = hash_behind(self.rest, self.hash, end + 1);
                let (line, rest) = self.rest.split_at(end + 1);
                let cut = Cut::at(line, self.hash.min(end));
                self.rest = rest;
                self.hash = hash;
                Some(cut)
            }
            None => {
                let cut = Cut::at(self.rest, self.hash);
                self.rest = &[];
                self.hash = 0;
                Some(cut)
            }
        }
    }

    /// The bytes of the lines that are left.
    pub(crate) fn rest(&self) -> &'a [u8]
        ensures { result.now ≡ concat self.now }
    {
        self.rest
    }
}

/// Where the first `#` stands.
fn first_hash(bytes: &[u8]) -> Option<usize>
    ensures { result ≡ position is_hash bytes.now }
{
    memchr(b'#', bytes)
}

/// How many bytes stand before the first `#`, or how many there are.
#[tactic(auto, using(crate::proofs::Firsts::unwrap_or_position))]
fn hash_in(bytes: &[u8]) -> usize
    ensures { result ≡ position_or_len is_hash bytes.now }
{
    first_hash(bytes).unwrap_or(bytes.len())
}

/// The same once so many bytes in front are cut off, where before the cut this was it.
fn hash_behind(bytes: &[u8], hash: usize, cut: usize) -> usize
    requires hash { hash ≡ position_or_len is_hash bytes.now }
    requires within { cut ≤ length bytes.now }
    ensures { result ≡ position_or_len is_hash (drop cut bytes.now) }
{
    if hash < cut {
        return hash_in(&bytes[cut..]);
    }
    hash - cut
}

/// Where the first line ends.
fn line_end(bytes: &[u8]) -> Option<usize>
    ensures { result ≡ position ends_line bytes.now }
{
    memchr(b'\n', bytes)
}

fn ends_line(b: u8) -> bool
    ensures { result ≡ ends_line b }
{
    b == b'\n'
}

fn ends_text(b: u8) -> bool
    ensures { result ≡ ends_text b }
{
    ends_line(b) || b == b'#'
}

/// A line without its end.
#[tactic(auto, using(crate::proofs::Firsts::unwrap_or_position))]
pub(crate) fn without_end(line: &[u8]) -> &[u8]
    ensures { result.now ≡ before_first ends_line line.now }
{
    &line[..line_end(line).unwrap_or(line.len())]
}

pub(crate) fn is_blank(b: u8) -> bool
    ensures { result ≡ is_blank b }
{
    matches!(b, b' ' | b'\t' | b'\r')
}

/// Whether a byte can stand in a text, and doesn't end it.
fn is_read(b: u8) -> bool
    ensures { result ≡ (is_allowed b && not (ends_text b)) }
{
    // Nearly every byte is in this range, so it is tried alone first.
    if b'$' <= b && b <= b'~' {
        return true;
    }
    matches!(b, b'!' | b'"' | b' ' | b'\t' | b'\r')
}

/// Where a line's text ends, or has a byte that can't stand there.
fn read_end(line: &[u8]) -> Option<usize>
    ensures { result ≡ position (λ b. not (is_allowed b && not (ends_text b))) line.now }
{
    line.iter().position(|b| !is_read(*b))
}

/// What is read of a line, unless it has a byte that can't stand there.
fn clean_text(line: &[u8]) -> Option<&[u8]>
    ensures { MatchOption result
        (list_all is_allowed (before_comment line.now) ≡ false)
        (λ text. (list_all is_allowed text.now ≡ true) × (text.now ≡ before_comment line.now)) }
{
    match read_end(line) {
        None => Some(line),
        Some(end) if ends_text(line[end]) => Some(&line[..end]),
        Some(_) => None,
    }
}

pub(crate) fn is_plain(b: u8) -> bool
    ensures { result ≡ is_plain b }
{
    (b' ' <= b && b <= b'~') || is_blank(b) || ends_line(b)
}

/// Whether all bytes are plain. None of them ends the search, so many are looked at at once.
pub(crate) fn are_plain(bytes: &[u8]) -> bool
    ensures { result ≡ list_all is_plain bytes.now }
{
    let mut plain = true;
    for b in bytes {
        plain &= is_plain(*b);
    }
    plain
}
