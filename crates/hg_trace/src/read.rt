//! Reading a trace.

ghost use Rattle.std.specs.Prelude.{◌≡◌, ◌≢◌, ◌^◌, IfOk, IfErr};
ghost use Rattle.std.specs.Prelude.{MatchResult, Ok, Err, ok_or, bytes_eq, true, false};
ghost use Rattle.std.specs.List.{list_all};
ghost use Rattle.hg_trace.specs.Lines.{is_plain};
ghost use Rattle.hg_trace.specs.Numbers.{number_below};
ghost use Rattle.hg_trace.specs.Commands.{worker_of, command_at, words_at};
ghost use Rattle.hg_trace.specs.Trace.{line_at, numbered, trace_of};
ghost use Rattle.hg_trace.specs.Stored.{lines_in};
ghost use Rattle.hg_trace.specs.Reads.{Reads};

use crate::commands::command_of;
use crate::fault::{LineFault, TraceFault};
use crate::line::Line;
use crate::lines::{Cut, Lines, are_plain};
use crate::numbers::parse_number;
use crate::trace::Trace;
use crate::words::Words;
use std::alloc::Global;

/// The most workers that there can be.
const WORKERS: u64 = 16;

pub(crate) fn worker_of(word: &[u8]) -> Result<u8, LineFault>
    ensures { result ≡ worker_of word.now }
{
    match word {
        [b'w', digits @ ..] => match parse_number(digits) {
            Some(number) if number < WORKERS => Ok(number as u8),
            _ => Err(LineFault::Command),
        },
        _ => Err(LineFault::Command),
    }
}

/// Reads the words of the line with this number.
fn read_words<'a>(
    trace: &mut Trace<'a>,
    number: u64,
    words: &mut Words<'a>,
) -> Result<(), TraceFault>
    ensures { Reads (numbered number (words_at trace.old.labels words.old))
        (lines_in trace.old) (lines_in trace.new) trace.old.labels trace.new.labels result }
{
    let Some(word) = words.next_word() else {
        return Ok(());
    };
    let worker = match worker_of(word) {
        Ok(worker) => worker,
        Err(fault) => return Err(fault.at(number)),
    };
    match command_of(trace.labels(), words) {
        Ok(command) => trace.push(&Line {
            number,
            worker,
            command,
        }),
        Err(fault) => Err(fault.at(number)),
    }
}

/// Reads the line with this number, which may be known to have plain bytes alone.
fn read_line<'a>(
    trace: &mut Trace<'a>,
    number: u64,
    line: Cut<'a>,
    plain: bool,
) -> Result<(), TraceFault>
    requires { plain ≡ true → list_all is_plain line ≡ true }
    ensures { Reads (numbered number (line_at trace.old.labels line.entry))
        (lines_in trace.old) (lines_in trace.new) trace.old.labels trace.new.labels result }
{
    match line.text(plain) {
        Some(text) => read_words(trace, number, &mut Words::new(text)),
        None => Err(LineFault::Byte.at(number)),
    }
}

/// The trace that the bytes mean, or the fault of their first faulty line.
pub fn read_trace<'a>(alloc: Global, bytes: &'a [u8]) -> Result<Trace<'a>, TraceFault>
    ensures ok { IfOk result (λ trace. trace_of bytes.now ≡ Ok (lines_in trace)) }
    ensures err { IfErr result
        (λ fault. fault ≢ TraceFault.Memory → trace_of bytes.now ≡ Err fault) }
{
    let mut trace = Trace::new(alloc);
    let mut lines = Lines::new(bytes);
    let plain = are_plain(bytes);
    let mut number = 0;
    while let Some(line) = lines.next_cut() {
        number += 1;
        read_line(&mut trace, number, line, plain)?;
    }
    Ok(trace)
}
