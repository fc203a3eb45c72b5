//! Laws of remote lists. Each function does nothing: what it promises is the law.

ghost use Rattle.hg_remote.specs.RemoteLaws.{DrainIsDetermined, LastSentIsDrained};
ghost use Rattle.hg_remote.specs.RemoteLaws.{DrainGivesHead, OrderHasAll, EmptyIsNothingSent};

/// A drain takes one place alone, and leaves one thing alone.
pub fn drain_is_determined()
    ensures { DrainIsDetermined }
{}

/// A drain right after a push gives the place back and leaves what was there before, unless the
/// place went behind one of another page.
pub fn last_sent_is_drained()
    ensures { LastSentIsDrained }
{}

/// A drain gives the head of the order in which places come off, and leaves its tail.
pub fn drain_gives_head()
    ensures { DrainGivesHead }
{}

/// That order has each place that the list has, once, and no other.
pub fn order_has_all()
    ensures { OrderHasAll }
{}

/// A list that has no place is one to which nothing was sent.
pub fn empty_is_nothing_sent()
    ensures { EmptyIsNothingSent }
{}
