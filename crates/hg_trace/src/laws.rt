//! Laws of the definitions. Each function does nothing: what it promises is the law.

ghost use Rattle.hg_trace.specs.FaultyWordLaws.{WrongWordsAreFaults, RightWordsAreRead};
ghost use Rattle.hg_trace.specs.FaultyWordLaws.{FaultsAreTold};
ghost use Rattle.hg_trace.specs.NumberLaws.{NumbersAreDecimals};
ghost use Rattle.hg_trace.specs.PlainLaws.{PlacesAreTheirTexts, HandlesAreTheirTexts};
ghost use Rattle.hg_trace.specs.PlainLaws.{LinesAreTheirWords, PlainTracesAreReadBack};
ghost use Rattle.hg_trace.specs.PlainLaws.{ReadLinesArePlain};

/// A word is read as a number exactly where it is how that number is written.
pub fn numbers_are_decimals()
    ensures { NumbersAreDecimals }
{}

/// A text is read as a place exactly where it is how that place is written.
pub fn places_are_their_texts()
    ensures { PlacesAreTheirTexts }
{}

/// A word is read as a handle exactly where it is how that handle is written, and its generation has
/// at most 32 bits.
pub fn handles_are_their_texts()
    ensures { HandlesAreTheirTexts }
{}

/// The words of a line are read as a worker's command exactly where they are how it is written and
/// it is plain: its names have a name's form, its numbers are in their ranges, a block's label is one
/// that an earlier line gave, and the label of its line is none of those.
pub fn lines_are_their_words()
    ensures { LinesAreTheirWords }
{}

/// A trace in its plain form, each line with one blank between its words and a line's end behind
/// them, is read back as itself.
pub fn plain_traces_are_read_back()
    ensures { PlainTracesAreReadBack }
{}

/// The lines of a trace that was read are plain, each behind those before it, and the labels that
/// they give are names, each given once.
pub fn read_lines_are_plain()
    ensures { ReadLinesArePlain }
{}

/// Where a word of a line isn't what is wanted there, the words of the line have the fault of the
/// first such word: `Command` where that is the worker or the command, and else `Operand`.
pub fn wrong_words_are_faults()
    ensures { WrongWordsAreFaults }
{}

/// Where each word of a line is what is wanted there, the words of the line are read, or have the
/// fault of a label.
pub fn right_words_are_read()
    ensures { RightWordsAreRead }
{}

/// Of each fault that the bytes of a trace have `faulty_word` tells something.
pub fn faults_are_told()
    ensures { FaultsAreTold }
{}
