//! The line of an answer.

ghost use Rattle.std.specs.Prelude.{◌≡◌, ◌+◌, ◌-◌, ◌≤◌, ◌++◌, ◌∷◌, []};
ghost use Rattle.std.specs.Prelude.{length, replicate, decimal, codes, MatchOption, true, false};
ghost use Rattle.arrayvec.specs.ArrayString.{array_string_len};
ghost use Rattle.hg_machine.specs.Policy.{Policy};
ghost use Rattle.hg_trace.specs.Printed.{handle_text};
ghost use Rattle.hg_core.specs.Answers.{free_answer};
ghost use Rattle.hg_heap.specs.Answers.{refused_answer, done_answer};
ghost use Rattle.hg_replay.specs.Text.{rule_text, answer_line, at_left, at_right};
ghost use Rattle.hg_replay.specs.Text.{listing_end};
ghost use Rattle.hg_replay.specs.Rows.{is_row, has_number};

use arrayvec::ArrayString;
use hg_core::{Freed, NotFreed, Refused};
use hg_machine::{Answer, Rule};
use hg_place::Handle;

/// How many places a row has for its handle, for its owner's name and for its bytes.
const HANDLE_PLACES: usize = 21;

const NAME_PLACES: usize = 16;

const BYTES_PLACES: usize = 5;

/// A line of output, with its end.
pub(crate) type Text = ArrayString<64>;

/// Appends a number of at most 32 bits, which takes 10 bytes at most.
fn push_short(text: &mut Text, n: u32)
    requires { array_string_len text.old + 10 ≤ 64 }
    ensures bytes { text.new.bytes ≡ text.old.bytes ++ decimal n }
    ensures len { array_string_len text.new ≤ array_string_len text.old + 10 }
{
    let mut digits = itoa::Buffer::new();
    text.push_str(digits.format(n));
}

fn push_handle(text: &mut Text, handle: Handle)
    requires { array_string_len text.old ≤ 8 }
    ensures bytes { text.new.bytes ≡ text.old.bytes ++ handle_text handle }
    ensures len { array_string_len text.new ≤ array_string_len text.old + 44 }
{
    text.push_str("@");
    push_short(text, u32::from(handle.place.segment));
    text.push_str(".");
    push_short(text, u32::from(handle.place.page));
    text.push_str(".");
    push_short(text, u32::from(handle.place.index));
    text.push_str(".");
    push_short(text, handle.generation);
}

/// Appends a word and a number behind it to an empty text.
fn push_tagged(text: &mut Text, word: &str, n: u64)
    requires empty { text.old.bytes ≡ [] }
    requires short { length word.now ≤ 8 }
    ensures bytes { text.new.bytes ≡ word.now ++ decimal n }
    ensures len { array_string_len text.new ≤ 28 }
{
    let mut digits = itoa::Buffer::new();
    text.push_str(word);
    text.push_str(digits.format(n));
}

/// The line of a denial.
fn denied_line(rule: Rule) -> &'static str
    ensures { result.now ≡ codes "denied " ++ rule_text rule ++ 10 ∷ [] }
{
    match rule {
        Rule::Stranger => "denied stranger\n",
        Rule::Stale(_) => "denied stale\n",
        Rule::AlreadyFreed => "denied freed\n",
        Rule::ForeignArena => "denied arena\n",
        Rule::Forbidden => "denied forbidden\n",
        Rule::NotGranted => "denied grant\n",
        Rule::OverLimit => "denied limit\n",
    }
}

/// The line of a call that is refused.
pub(crate) fn refused_line(refused: Refused) -> &'static str
    ensures { (policy : Policy) → result.now ≡ answer_line policy (refused_answer refused) }
{
    match refused {
        Refused::Denied(rule) => denied_line(rule),
        Refused::TooLarge => "large\n",
        Refused::NoRoom => "noroom\n",
        Refused::Elsewhere => "elsewhere\n",
        Refused::OutOfBlock => "range\n",
    }
}

/// The line of what a free is told.
pub(crate) fn freed_line(told: Result<Freed, NotFreed>) -> &'static str
    ensures { (policy : Policy) → result.now ≡ answer_line policy (free_answer told) }
{
    match told {
        Ok(Freed::Here) => "ok\n",
        Ok(Freed::InHand) => "parted\n",
        Err(NotFreed::Denied(rule)) => denied_line(rule),
        Err(NotFreed::Busy) => "busy\n",
    }
}

/// The line of what a write is told.
pub(crate) fn written_line(told: Result<(), Refused>) -> &'static str
    ensures { (policy : Policy) → result.now ≡ answer_line policy (done_answer told) }
{
    match told {
        Ok(()) => "ok\n",
        Err(refused) => refused_line(refused),
    }
}

/// The line of an answer with no number in it. Most answers are such, and nothing is built for
/// them.
pub(crate) fn ready_line(answer: Answer) -> Option<&'static str>
    ensures { MatchOption result
        (has_number answer ≡ true)
        (λ line. (policy : Policy) → line.now ≡ answer_line policy answer) }
{
    match answer {
        Answer::Done => Some("ok\n"),
        Answer::Parted => Some("parted\n"),
        Answer::Denied(rule) => Some(denied_line(rule)),
        Answer::TooLarge => Some("large\n"),
        Answer::NoRoom => Some("noroom\n"),
        Answer::Elsewhere => Some("elsewhere\n"),
        Answer::OutOfBlock => Some("range\n"),
        Answer::Busy => Some("busy\n"),
        Answer::NothingInHand => Some("empty\n"),
        Answer::NotHeld => Some("notheld\n"),
        Answer::NoSegment => Some("nosegment\n"),
        _ => None,
    }
}

fn push_block(text: &mut Text, handle: Handle)
    requires { text.old.bytes ≡ [] }
    ensures bytes { text.new.bytes ≡ codes "ok " ++ handle_text handle }
    ensures len { array_string_len text.new ≤ 47 }
{
    text.push_str("ok ");
    push_handle(text, handle);
}

/// The line of a block that was given out.
pub(crate) fn block_line(handle: Handle) -> Text
    ensures { result.bytes ≡ (codes "ok " ++ handle_text handle) ++ 10 ∷ [] }
{
    let mut text = Text::new();
    push_block(&mut text, handle);
    text.push_str("\n");
    text
}

/// The line of a word that was read.
pub(crate) fn value_line(value: u64) -> Text
    ensures { result.bytes ≡ (codes "word " ++ decimal value) ++ 10 ∷ [] }
{
    let mut text = Text::new();
    push_tagged(&mut text, "word ", value);
    text.push_str("\n");
    text
}

fn push_blanks(text: &mut Text, n: usize)
    requires room { array_string_len text.old + n ≤ 64 }
    ensures bytes { text.new.bytes ≡ text.old.bytes ++ replicate n 32 }
    ensures len { array_string_len text.new ≡ array_string_len text.old + n }
{
    for _ in 0..n {
        text.push_str(" ");
    }
}

/// What a row has before its owner's name: the handle, and a blank.
pub(crate) fn row_front(handle: Handle) -> Text
    ensures { result.bytes ≡ at_left 21 (handle_text handle) ++ codes " " }
{
    let mut text = Text::new();
    push_handle(&mut text, handle);
    let blanks = HANDLE_PLACES.saturating_sub(text.len());
    push_blanks(&mut text, blanks);
    text.push_str(" ");
    text
}

/// What a row has behind a name of so many bytes: blanks, the bytes of the class, and its end.
pub(crate) fn row_back(name: usize, bytes: u32) -> Text
    ensures { result.bytes ≡ replicate (16 - name) 32 ++ codes " " ++ at_right 5 (decimal bytes)
        ++ 10 ∷ [] }
{
    let mut buffer = itoa::Buffer::new();
    let digits = buffer.format(bytes);
    let mut text = Text::new();
    push_blanks(&mut text, NAME_PLACES.saturating_sub(name));
    text.push_str(" ");
    push_blanks(&mut text, BYTES_PLACES.saturating_sub(digits.len()));
    text.push_str(digits);
    text.push_str("\n");
    text
}

/// The last line of a listing of so many rows.
pub(crate) fn listing_end(rows: u32) -> Text
    ensures { result.bytes ≡ listing_end rows }
{
    let mut text = Text::new();
    text.push_str("rows ");
    push_short(&mut text, rows);
    text.push_str("\n");
    text
}

/// Appends the line of an answer with a number in it, but for a row, to an empty text.
pub(crate) fn push_line(text: &mut Text, answer: Answer)
    requires empty { text.old.bytes ≡ [] }
    requires numbered { has_number answer ≡ true }
    requires other { is_row answer ≡ false }
    ensures { (policy : Policy) → text.new.bytes ≡ answer_line policy answer }
{
    match answer {
        Answer::Block(handle) => push_block(text, handle),
        Answer::Value(n) => push_tagged(text, "word ", n),
        Answer::Taken(n) => push_tagged(text, "taken ", u64::from(n)),
        Answer::Pages(n) => push_tagged(text, "pages ", u64::from(n)),
        Answer::Refilled(segment) => push_tagged(text, "segment ", u64::from(segment)),
        _ => unreachable!(),
    }
    text.push_str("\n");
}
