//! Laws of replies. Each function does nothing: what it promises is the law.

ghost use Rattle.hg_reply.specs.ReplyLaws.{RepliesAreApart};

/// Two answers with one reply are one answer, so a host knows by the reply what it was answered.
pub fn replies_are_apart()
    ensures { RepliesAreApart }
{}
