//! The forms in which what stands is told, and the words of its lines.

ghost use Rattle.std.specs.Prelude.{◌≡◌, ◌++◌, OnOk, decimal};
ghost use Rattle.hg_state.specs.Words.{json_word, text_word, word_of};

use hg_text::{push, push_count};
use std::alloc::AllocError;

/// How what stands is told.
#[derive(Clone, Copy, Debug, PartialEq, Eq)]
pub enum View {
    /// A line for each fact, for people.
    Text,
    /// The same as JSON, for programs: an object a line.
    Json,
    /// Pages and places, drawn with a character each.
    Map,
    /// Segments, pages and places as an SVG file, with a colour for each tenant.
    Svg,
}

/// How a line is written.
#[derive(Clone, Copy)]
pub(crate) enum Form {
    Text,
    Json,
}

/// What a picture is made of.
#[derive(Clone, Copy)]
pub(crate) enum Drawing {
    Map,
    Svg,
}

/// What stands between the numbers and names of a line.
#[derive(Clone, Copy)]
pub(crate) enum Word {
    Worker,
    Holds,
    Hand,
    Empty,
    Quote,
    ChargedTo,
    Bytes,
    Limit,
    Orphans,
    Fresh,
    NoNumber,
    FirstNumber,
    NextNumber,
    LastNumber,
    Tenant,
    TenantLive,
    Segment,
    PageOf,
    Page,
    PageClass,
    Places,
    Live,
    Parted,
    Sent,
    Worn,
    Free,
    Class,
    Blocks,
    Allocs,
    Asked,
    Given,
    End,
}

/// A word of text.
fn text_word(word: Word) -> &'static str
    ensures { result.now ≡ text_word word }
{
    match word {
        Word::Worker => "worker ",
        Word::Holds => " holds",
        Word::Hand => " hand ",
        Word::Empty => "empty",
        Word::Quote => "",
        Word::ChargedTo => " ",
        Word::Bytes => " ",
        Word::Limit => " of ",
        Word::Orphans => "orphans",
        Word::Fresh => "fresh",
        Word::NoNumber => " none",
        Word::FirstNumber => " ",
        Word::NextNumber => " ",
        Word::LastNumber => "",
        Word::Tenant => "tenant ",
        Word::TenantLive => " live ",
        Word::Segment => "segment ",
        Word::PageOf => "page ",
        Word::Page => ".",
        Word::PageClass => " class ",
        Word::Places => " places ",
        Word::Live => " live ",
        Word::Parted => " parted ",
        Word::Sent => " sent ",
        Word::Worn => " worn ",
        Word::Free => " free ",
        Word::Class => "class ",
        Word::Blocks => " blocks ",
        Word::Allocs => " allocs ",
        Word::Asked => " asked ",
        Word::Given => " given ",
        Word::End => "\n",
    }
}

/// A word of JSON.
fn json_word(word: Word) -> &'static str
    ensures { result.now ≡ json_word word }
{
    match word {
        Word::Worker => "{\"worker\":",
        Word::Holds => ",\"holds\":",
        Word::Hand => ",\"hand\":",
        Word::Empty => "null",
        Word::Quote => "\"",
        Word::ChargedTo => ",\"tenant\":\"",
        Word::Bytes => "\",\"bytes\":",
        Word::Limit => ",\"limit\":",
        Word::Orphans => "{\"orphans\":",
        Word::Fresh => "{\"fresh\":",
        Word::NoNumber => "[]",
        Word::FirstNumber => "[",
        Word::NextNumber => ",",
        Word::LastNumber => "]",
        Word::Tenant => "{\"tenant\":\"",
        Word::TenantLive => "\",\"live\":",
        Word::Segment => "{\"segment\":",
        Word::PageOf => "{\"segment\":",
        Word::Page => ",\"page\":",
        Word::PageClass => ",\"class\":",
        Word::Places => ",\"places\":",
        Word::Live => ",\"live\":",
        Word::Parted => ",\"parted\":",
        Word::Sent => ",\"sent\":",
        Word::Worn => ",\"worn\":",
        Word::Free => ",\"free\":",
        Word::Class => "{\"class\":",
        Word::Blocks => ",\"blocks\":",
        Word::Allocs => ",\"allocs\":",
        Word::Asked => ",\"asked\":",
        Word::Given => ",\"given\":",
        Word::End => "}\n",
    }
}

/// A word in a form.
fn word_in(form: Form, word: Word) -> &'static str
    ensures { result.now ≡ word_of form word }
{
    match form {
        Form::Text => text_word(word),
        Form::Json => json_word(word),
    }
}

/// Appends a word.
pub(crate) fn push_word(out: &mut Vec<u8>, form: Form, word: Word) -> Result<(), AllocError>
    ensures { OnOk result (out.new.items ≡ out.old.items ++ word_of form word) }
{
    push(out, word_in(form, word))
}

/// Appends a word, and a number behind it.
pub(crate) fn push_counted(
    out: &mut Vec<u8>,
    form: Form,
    word: Word,
    n: u64,
) -> Result<(), AllocError>
    ensures { OnOk result (out.new.items ≡ out.old.items ++ word_of form word ++ decimal n) }
{
    push_count(out, word_in(form, word), n)
}

/// Appends a word, and a name behind it.
pub(crate) fn push_named(
    out: &mut Vec<u8>,
    form: Form,
    word: Word,
    name: &str,
) -> Result<(), AllocError>
    ensures { OnOk result (out.new.items ≡ out.old.items ++ word_of form word ++ name.now) }
{
    push_word(out, form, word)?;
    push(out, name)
}
