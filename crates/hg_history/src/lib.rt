//! All answers of a service are one run of its machine: the rule of which a table of seats can be
//! kept, for any machine. Each function does nothing: what it promises is the law.
#![tactic(auto)]

ghost use Rattle.hg_history.specs.Freeing.{SeatsKeepOneHistory, FirstFreesAlone};

/// Whatever workers that free one block decide, however their seats join and split, there is one
/// history of all their calls.
pub fn seats_keep_one_history()
    ensures { SeatsKeepOneHistory }
{}

/// Whatever the order of their steps, there is a history of all their calls, of which the first
/// frees the block and no other does.
pub fn first_frees_alone()
    ensures { FirstFreesAlone }
{}
