use hg_place::Standing;
use std::collections::LinkedList;

/// What a seat knows of the table. No value of it is made: it takes no room in a run.
pub struct Part {
    /// Words that were seen: the index of each in the table, and what it was.
    pub seen: LinkedList<(u64, u64)>,
    /// Lives that this seat has ended: the index of the word, and the generation.
    pub ended: LinkedList<(u64, u64)>,
    /// The index of the word of the first place that it has a record of.
    pub first: u64,
    /// The records of that place and those that follow it.
    pub records: LinkedList<Standing>,
    /// How many seats may still come out of this one: 80 of the initial seat, at first, and none of
    /// any other.
    pub may_give: u64,
}

/// One part; two in a seat that took in another, until they are cut; none in the one taken in.
pub type View = LinkedList<Part>;
