//! What the one run says of a service that has ended. The function does nothing: what it promises is the
//! law.

ghost use Rattle.hg_run_worker.specs.ServiceLaws.{FreesAreOnce};

/// Of the frees of one block that workers of a service have logged which ended as one run, of two of them or of one,
/// at most one was served.
pub fn frees_are_once()
    ensures { FreesAreOnce }
{}
