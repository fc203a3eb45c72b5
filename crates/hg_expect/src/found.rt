//! What is found of the lines of a trace.

ghost use Rattle.std.specs.Prelude.{◌≡◌, ◌≤◌, ◌<◌, ◌+◌, ◌^◌, ◌++◌, OnOk, IfOk, decimal, length, Some};
ghost use Rattle.std.specs.Prelude.{string_bytes};
ghost use Rattle.memchr.specs.Find.{FindsNeedle};
ghost use Rattle.hg_policy_text.specs.OneLine.{one_line};
ghost use Rattle.hg_expect.specs.Words.{last_line, words};
ghost use Rattle.hg_expect.specs.Findings.{counts_text, found_after, Finds, hunk, names_text};
ghost use Rattle.hg_expect.specs.Findings.{found_unmarked, nothing, place_text, slip_warning};
ghost use Rattle.hg_expect.specs.Findings.{trace_text, unstated_warning, warnings};

use crate::words::{is_slip, last_line, push_shown, words};
use hg_policy_text::OneLine;
use memchr::memmem;
use std::alloc::{AllocError, Global};
use std::marker::Model;

/// The lines of a trace that were answered otherwise than they state, as a diff; how many lines
/// state an answer, and how many of these differ; how many have a slip instead, a comment like an
/// answer, and the number of the first, 0 where none has.
#[derive(Drop)]
pub(crate) struct Found {
    hunks: Vec<u8>,
    stated: u64,
    differ: u64,
    slips: u64,
    slip: u64,
}

impl Model for Found {
    ghost use Rattle.hg_expect.specs.Findings.{Findings};

    ghost Value = { Findings };

    ghost view = { λ found. record {
      hunks = found.hunks.items;
      stated = found.stated;
      differ = found.differ;
      slips = found.slips;
      slip = found.slip;
    } };
}

/// Appends a text.
pub(crate) fn push(out: &mut Vec<u8>, text: &str) -> Result<(), AllocError>
    ensures { OnOk result (out.new.items ≡ out.old.items ++ text.now) }
{
    out.extend_from_slice(text.as_bytes())
}

/// Appends a word and a number behind it.
pub(crate) fn push_count(out: &mut Vec<u8>, word: &str, n: u64) -> Result<(), AllocError>
    ensures { OnOk result (out.new.items ≡ out.old.items ++ word.now ++ decimal n) }
{
    let mut digits = itoa::Buffer::new();
    push(out, word)?;
    push(out, digits.format(n))
}

/// Appends where a line stands.
#[tactic(auto, unfolding(crate::specs::Findings::place_text))]
fn push_place(out: &mut Vec<u8>, number: u64) -> Result<(), AllocError>
    ensures { OnOk result (out.new.items ≡ out.old.items ++ place_text number) }
{
    push_count(out, "@@ -", number)?;
    push_count(out, " +", number)?;
    push(out, " @@\n")
}

/// Appends a line as it is, and as it would be with this answer.
#[tactic(auto, unfolding(crate::specs::Findings::hunk))]
fn push_hunk(
    out: &mut Vec<u8>,
    number: u64,
    line: &[u8],
    front: usize,
    answer: &[u8],
) -> Result<(), AllocError>
    requires { front ≤ length line.now }
    ensures { OnOk result (out.new.items
        ≡ out.old.items ++ hunk number line.now front answer.now) }
{
    push_place(out, number)?;
    push(out, "-")?;
    push_shown(out, line)?;
    push(out, "\n+")?;
    push_shown(out, &line[..front])?;
    out.extend_from_slice(answer)?;
    push(out, "\n")
}

/// The name of a file as it is told, in one line.
fn told_name(alloc: Global, name: &str) -> Result<String, AllocError>
    ensures { IfOk result (λ told. string_bytes told ≡ one_line name.now) }
{
    format!(in alloc; "{}", OneLine(name))
}

/// Appends the name, as it is told, of a file of which some lines differ.
#[tactic(auto, unfolding(crate::specs::Findings::names_text))]
fn push_names(out: &mut Vec<u8>, told: &str) -> Result<(), AllocError>
    ensures { OnOk result (out.new.items ≡ out.old.items ++ names_text told.now) }
{
    push(out, "--- ")?;
    push(out, told)?;
    push(out, "\n+++ ")?;
    push(out, told)?;
    push(out, "\n")
}

/// Appends how many lines of a file state an answer, and how many of them differ, behind its name
/// as it is told.
#[tactic(auto, unfolding(crate::specs::Findings::counts_text))]
fn push_counts(out: &mut Vec<u8>, told: &str, stated: u64, differ: u64) -> Result<(), AllocError>
    ensures { OnOk result (out.new.items
        ≡ out.old.items ++ counts_text told.now stated differ) }
{
    push(out, told)?;
    push_count(out, ": expected ", stated)?;
    push_count(out, " differ ", differ)?;
    push(out, "\n")
}

/// Appends the warning that nothing is expected of a trace.
#[tactic(auto, unfolding(crate::specs::Findings::unstated_warning))]
fn push_unstated(out: &mut Vec<u8>, told: &str) -> Result<(), AllocError>
    ensures { OnOk result (out.new.items ≡ out.old.items ++ unstated_warning told.now) }
{
    push(out, "warning: ")?;
    push(out, told)?;
    push(out, ": no line states an answer\n")
}

/// Appends the warning that so many lines may have a slip, the first of this number.
#[tactic(auto, unfolding(crate::specs::Findings::slip_warning))]
fn push_slip(out: &mut Vec<u8>, told: &str, slip: u64, slips: u64) -> Result<(), AllocError>
    ensures { OnOk result (out.new.items ≡ out.old.items ++ slip_warning told.now slip slips) }
{
    push(out, "warning: ")?;
    push(out, told)?;
    push_count(out, ": line ", slip)?;
    push_count(
        out,
        " states nothing: an answer stands behind `# =>` (such lines: ",
        slips,
    )?;
    push(out, ")\n")
}

impl Found {
    /// No line was answered yet.
    pub(crate) fn new(alloc: Global) -> Found
        ensures { result ≡ nothing }
    {
        Found {
            hunks: Vec::new(alloc),
            stated: 0,
            differ: 0,
            slips: 0,
            slip: 0,
        }
    }

    /// How many lines were answered otherwise than they state.
    pub(crate) fn differ(&self) -> u64
        ensures { result ≡ self.now.differ }
    {
        self.differ
    }

    /// Notes a line that states an answer behind so many bytes.
    fn compare(
        &mut self,
        alloc: Global,
        number: u64,
        line: &[u8],
        front: usize,
        answer: &[u8],
    ) -> Result<(), AllocError>
        requires within { front ≤ length line.now }
        requires stated { self.old.stated + 1 < 2 ^ 64 }
        requires differ { self.old.differ + 1 < 2 ^ 64 }
        ensures { OnOk result
            (self.new ≡ found_after self.old number line.now front answer.now) }
    {
        let stated = words(alloc, &line[front..])?;
        if stated.as_slice() != answer {
            push_hunk(&mut self.hunks, number, line, front, answer)?;
            self.differ += 1;
        }
        self.stated += 1;
        Ok(())
    }

    /// Notes a line that states no answer.
    fn note_unmarked(&mut self, number: u64, line: &[u8])
        requires { self.old.slips + 1 < 2 ^ 64 }
        ensures { self.new ≡ found_unmarked self.old number line.now }
    {
        if is_slip(line) {
            if self.slips == 0 {
                self.slip = number;
            }
            self.slips += 1;
        }
    }

    /// Notes a line of this number, where a replay would print this text for it.
    pub(crate) fn note(
        &mut self,
        alloc: Global,
        number: u64,
        line: &[u8],
        text: &[u8],
    ) -> Result<(), AllocError>
        requires stated { self.old.stated + 1 < 2 ^ 64 }
        requires differ { self.old.differ + 1 < 2 ^ 64 }
        requires slips { self.old.slips + 1 < 2 ^ 64 }
        ensures { OnOk result (Finds self.old number line.now text.now self.new) }
    {
        let Some(at) = memmem::find(line, b"# =>") else {
            self.note_unmarked(number, line);
            return Ok(());
        };
        let last = last_line(alloc, text)?;
        let answer = words(alloc, &last)?;
        self.compare(alloc, number, line, at + 4, &answer)
    }

    /// Appends what is told of a trace of this name.
    pub(crate) fn push_to(
        &self,
        alloc: Global,
        out: &mut Vec<u8>,
        name: &str,
    ) -> Result<(), AllocError>
        ensures { OnOk result (out.new.items ≡ out.old.items ++ trace_text name.now self.now) }
    {
        let told = told_name(alloc, name)?;
        if self.differ != 0 {
            push_names(out, &told)?;
            out.extend_from_slice(&self.hunks)?;
        }
        push_counts(out, &told, self.stated, self.differ)
    }

    /// What is warned of in a trace of this name.
    pub(crate) fn warnings(&self, alloc: Global, name: &str) -> Result<Vec<u8>, AllocError>
        ensures { IfOk result (λ text. text.items ≡ warnings name.now self.now) }
    {
        let mut text = Vec::new(alloc);
        if self.stated != 0 && self.slips == 0 {
            return Ok(text);
        }
        let told = told_name(alloc, name)?;
        if self.stated == 0 {
            push_unstated(&mut text, &told)?;
        }
        if self.slips != 0 {
            push_slip(&mut text, &told, self.slip, self.slips)?;
        }
        Ok(text)
    }
}
