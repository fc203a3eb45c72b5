//! Laws of the bytes of a core's blocks, and of a bank's. Each function does nothing: what it
//! promises is the law.

ghost use Rattle.hg_bytes.specs.Allowed.{AllowedIsRead, AllowedIsWritten};
ghost use Rattle.hg_bytes.specs.Ends.{ReadsEnd, WritesEnd};
ghost use Rattle.hg_bytes.specs.Laws.{EachWordHasBytes, ReadsShowBytes, WritesPutBytes};
ghost use Rattle.hg_bytes.specs.Laws.{BankReadsAreACores, BankWritesAreACores, WrittenIsRead};

/// A word is one of those that bytes reach into exactly where one of them lies in it.
pub fn each_word_has_bytes()
    ensures { EachWordHasBytes }
{}

/// Bytes that were read are those that the block has, and reading changes nothing.
pub fn reads_show_bytes()
    ensures { ReadsShowBytes }
{}

/// Bytes that were written are those that the block has then, and nothing else changes.
pub fn writes_put_bytes()
    ensures { WritesPutBytes }
{}

/// Bytes that were written are read there, whoever asks.
pub fn written_is_read()
    ensures { WrittenIsRead }
{}

/// All bytes were read; or those of the words before one whose Read is refused.
pub fn reads_end()
    ensures { ReadsEnd }
{}

/// All bytes were written; or those of the words before one whose Write is refused, or whose Read is
/// where they don't fill it.
pub fn writes_end()
    ensures { WritesEnd }
{}

/// Bytes that lie in a block are read whole, where the worker holds it and the actor may read it.
pub fn allowed_is_read()
    ensures { AllowedIsRead }
{}

/// They are written whole, where it holds it and the actor may write it, and read it too or fill whole
/// words.
pub fn allowed_is_written()
    ensures { AllowedIsWritten }
{}

/// Bytes that are read of a bank's block are read of its core's, and each other core stays.
pub fn bank_reads_are_a_cores()
    ensures { BankReadsAreACores }
{}

/// Bytes that are written into a bank's block are written into its core's, and each other core stays.
pub fn bank_writes_are_a_cores()
    ensures { BankWritesAreACores }
{}
