//! A law of marks. The function does nothing: what it promises is the law.

ghost use Rattle.hg_bank_service_ffi.specs.Owning.{MarksAreApart};

/// A core, a bank, a part of a service and one of a bank of services have each a mark of its own, so
/// none is taken for another.
pub fn marks_are_apart()
    ensures { MarksAreApart }
{}
