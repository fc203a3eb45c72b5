//! Laws of a bank's replies. Each function does nothing: what it promises is the law.

ghost use Rattle.hg_bank_replies.specs.ReplyLaws.{BankRepliesAreApart};

/// Two answers with one reply are one answer, and what they give is of one core: so a host knows by
/// the reply what it was answered, and of which core.
pub fn bank_replies_are_apart()
    ensures { BankRepliesAreApart }
{}
