//! Answers, as a log has them.

use hg_machine::{Answer, Row, Rule};
use hg_place::Handle;
use hg_policy::Policy;
use std::str::SplitWhitespace;

/// The answer that these words are, if they are one and nothing stands behind it.
pub(crate) fn answer_of(policy: &Policy, text: &str) -> Option<Answer> {
    let mut words = text.split_whitespace();
    let first = words.next()?;
    let answer = match first {
        "ok" => done_or_block(&mut words)?,
        "denied" => Answer::Denied(rule_of(&mut words)?),
        _ => match plain_answer(first) {
            Some(answer) => answer,
            None => match numbered_answer(first, &mut words) {
                Some(answer) => answer,
                None => Answer::Listed(row_of(policy, first, &mut words)?),
            },
        },
    };
    match words.next() {
        None => Some(answer),
        Some(_) => None,
    }
}

/// The answer of one word.
fn plain_answer(word: &str) -> Option<Answer> {
    match word {
        "parted" => Some(Answer::Parted),
        "large" => Some(Answer::TooLarge),
        "noroom" => Some(Answer::NoRoom),
        "elsewhere" => Some(Answer::Elsewhere),
        "range" => Some(Answer::OutOfBlock),
        "busy" => Some(Answer::Busy),
        "empty" => Some(Answer::NothingInHand),
        "notheld" => Some(Answer::NotHeld),
        "nosegment" => Some(Answer::NoSegment),
        _ => None,
    }
}

fn handle_in(word: &str) -> Option<Handle> {
    word.parse::<Handle>().ok()
}

/// What is behind `ok`: nothing, or a handle.
fn done_or_block(words: &mut SplitWhitespace) -> Option<Answer> {
    match words.next() {
        None => Some(Answer::Done),
        Some(word) => Some(Answer::Block(handle_in(word)?)),
    }
}

/// An answer that is a word with a number.
fn numbered_answer(word: &str, words: &mut SplitWhitespace) -> Option<Answer> {
    match word {
        "word" => Some(Answer::Value(words.next()?.parse::<u64>().ok()?)),
        "taken" => Some(Answer::Taken(words.next()?.parse::<u32>().ok()?)),
        "pages" => Some(Answer::Pages(words.next()?.parse::<u32>().ok()?)),
        "segment" => Some(Answer::Refilled(words.next()?.parse::<u8>().ok()?)),
        _ => None,
    }
}

/// The rule behind `denied`.
fn rule_of(words: &mut SplitWhitespace) -> Option<Rule> {
    match words.next()? {
        "stranger" => Some(Rule::Stranger),
        "stale" => Some(Rule::Stale(words.next()?.parse::<u32>().ok()?)),
        "freed" => Some(Rule::AlreadyFreed),
        "arena" => Some(Rule::ForeignArena),
        "forbidden" => Some(Rule::Forbidden),
        "grant" => Some(Rule::NotGranted),
        "limit" => Some(Rule::OverLimit),
        _ => None,
    }
}

/// A row: a handle, an owner and the bytes of the class.
fn row_of(policy: &Policy, handle: &str, words: &mut SplitWhitespace) -> Option<Row> {
    let handle = handle_in(handle)?;
    let owner = policy.tenant(words.next()?)?;
    let bytes = words.next()?.parse::<u32>().ok()?;
    Some(Row {
        handle,
        owner,
        bytes,
    })
}
