//! Logs: the lines of a trace, each with what it was answered.

use crate::answers::answer_of;
use crate::call::Call;
use crate::commands::event_of;
use hg_policy::Policy;
use hg_trace::{Line, TraceFault, read_trace};
use std::alloc::{AllocError, AllocFailed, Global};
use thiserror::Error;

/// What stands between a call and its answer.
const MARK: &str = "# => ";

/// Why no log was read.
#[derive(Debug, Drop, Error)]
pub enum LogFault {
    /// It isn't a trace.
    #[error("{0}")]
    Trace(TraceFault),
    /// It isn't a text.
    #[error("log fault: no text")]
    Text,
    /// The line of this number, from 1, has no answer, or its command is no event.
    #[error("log fault at line {0}")]
    Line(u64),
    /// Want of memory.
    #[error("no memory")]
    Memory,
}

impl From<AllocError> for LogFault {
    fn from(_: AllocError) -> LogFault {
        LogFault::Memory
    }
}

impl<T: Drop> From<AllocFailed<T>> for LogFault {
    fn from(_: AllocFailed<T>) -> LogFault {
        LogFault::Memory
    }
}

/// The call of a line of the trace, whose text is among these.
fn call_of(policy: &Policy, texts: &[&str], line: Line<'_>) -> Option<Call> {
    let Line {
        number,
        worker,
        command,
    } = line;
    let text = texts.get((number as usize).checked_sub(1)?)?;
    let (_, answer) = text.split_once(MARK)?;
    Some(Call {
        worker,
        event: event_of(policy, command)?,
        answer: answer_of(policy, answer)?,
    })
}

/// The calls of a log, in the order of its lines.
pub fn read_log(alloc: Global, policy: &Policy, bytes: &[u8]) -> Result<Vec<Call>, LogFault> {
    let Ok(text) = str::from_utf8(bytes) else {
        return Err(LogFault::Text);
    };
    let texts: Vec<&str> = text.split('\n').collect(alloc)?;
    let trace = match read_trace(alloc, bytes) {
        Ok(trace) => trace,
        Err(fault) => return Err(LogFault::Trace(fault)),
    };
    let mut calls = Vec::new(alloc);
    for at in 0..trace.stored().len() {
        let Some(line) = trace.line(at) else {
            break;
        };
        let number = line.number;
        match call_of(policy, &texts, line) {
            Some(call) => calls.push(call)?,
            None => return Err(LogFault::Line(number)),
        }
    }
    Ok(calls)
}
