//! Laws of the definitions. Each function does nothing: what it promises is the law.

ghost use Rattle.hg_program.specs.EndLaws.{LongFilesFail};

/// A file longer than the limit is not read: the program fails with nothing written.
pub fn long_files_fail()
    ensures { LongFilesFail }
{}
