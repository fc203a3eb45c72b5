use crate::seen::{Seen, live, over, seen_by};
use hg_calls::Call;
use hg_machine::{Answer, Event};
use hg_place::{Handle, Place};

/// Above the numbers of all places.
const PLACES: u32 = 1 << 19;

/// What a call changes.
#[derive(Clone, Copy, Debug, PartialEq, Eq)]
pub(crate) enum Change {
    Nothing,
    /// A place's word, which it leaves in this state.
    Word(Place, u64),
    /// A word of a block.
    Block(Handle),
    /// What was sent to a segment: one place more.
    Sends(u8),
    /// What was sent to a segment: nothing is left.
    Takes(u8),
    /// Which segments nobody holds.
    Pool,
    /// What is the worker's own.
    Own,
}

/// Where calls of several workers meet: they matter to one another at one spot alone.
#[derive(Clone, Copy, Debug, PartialEq, Eq)]
pub(crate) enum Spot {
    /// The word of a place, and the block there.
    Place(Place),
    /// What was sent to a segment.
    Segment(u8),
    /// Which segments nobody holds.
    Pool,
}

impl Spot {
    /// A number below 2^20 that only this spot has.
    pub fn number(self) -> u32 {
        match self {
            Spot::Place(place) => {
                let page = u32::from(place.segment)
                    .wrapping_mul(16)
                    .wrapping_add(u32::from(place.page));
                page.wrapping_mul(512).wrapping_add(u32::from(place.index))
            }
            Spot::Segment(segment) => PLACES.wrapping_add(u32::from(segment)),
            Spot::Pool => PLACES.wrapping_add(256),
        }
    }
}

/// A call of a log, with what is known of it by its answer.
#[derive(Clone, Copy, Debug, PartialEq, Eq)]
pub(crate) struct Step {
    pub call: Call,
    pub change: Change,
    pub seen: Option<Seen>,
}

impl Step {
    /// A call of a worker that has this block in hand.
    pub fn of(call: Call, hand: Option<Handle>) -> Step {
        Step {
            call,
            change: change_of(call, hand),
            seen: seen_by(call.event, call.answer),
        }
    }

    /// What the worker has in hand after the call.
    pub fn hand_after(self, hand: Option<Handle>) -> Option<Handle> {
        match (self.call.event, self.call.answer) {
            (Event::Free { handle, .. }, Answer::Parted) => Some(handle),
            (Event::Deliver, _) => None,
            _ => hand,
        }
    }

    /// Whether it reads or writes words of a block.
    fn uses_block(&self) -> bool {
        matches!(
            (self.call.event, self.call.answer),
            (Event::Read { .. }, Answer::Value(_)) | (Event::Write { .. }, Answer::Done)
        )
    }

    /// Whether a change at its spot may spoil it: it uses the block, sends to the segment or deals
    /// with the pool.
    pub fn counts(&self) -> bool {
        self.uses_block() || matches!(self.change, Change::Sends(_)) || self.deals_with_pool()
    }

    /// Whether it deals with the pool.
    fn deals_with_pool(&self) -> bool {
        self.change == Change::Pool || matches!(self.call.event, Event::Refill { .. })
    }

    /// Whether it takes in what was sent to a segment.
    pub fn takes(&self, from: u8) -> bool {
        self.taken_from() == Some(from)
    }

    /// The segment from which it takes in what was sent there.
    pub fn taken_from(&self) -> Option<u8> {
        match (self.call.event, self.call.answer) {
            (Event::Take { segment }, Answer::Taken(_)) => Some(segment),
            _ => None,
        }
    }

    /// Where it meets calls of other workers, if it does.
    pub fn spot(&self) -> Option<Spot> {
        if let Some(seen) = self.seen {
            return Some(Spot::Place(seen.place));
        }
        match self.change {
            Change::Word(place, _) => Some(Spot::Place(place)),
            Change::Block(handle) => Some(Spot::Place(handle.place)),
            Change::Sends(segment) | Change::Takes(segment) => Some(Spot::Segment(segment)),
            _ if self.deals_with_pool() => Some(Spot::Pool),
            _ => Some(Spot::Segment(self.taken_from()?)),
        }
    }
}

/// What a call changes, by its answer.
fn change_of(call: Call, hand: Option<Handle>) -> Change {
    match (call.event, call.answer) {
        (Event::Alloc { .. }, Answer::Block(handle)) => Change::Word(handle.place, live(handle)),
        (Event::Free { handle, .. }, Answer::Done | Answer::Parted) => {
            Change::Word(handle.place, over(handle))
        }
        (Event::Write { handle, .. }, Answer::Done) => Change::Block(handle),
        (Event::Deliver, Answer::Done) => match hand {
            Some(handle) => Change::Sends(handle.place.segment),
            None => Change::Own,
        },
        (Event::Take { .. }, Answer::Taken(0)) => Change::Nothing,
        (Event::Take { segment }, Answer::Taken(_)) => Change::Takes(segment),
        (Event::Collect, Answer::Pages(0)) => Change::Nothing,
        (Event::Collect, Answer::Pages(_)) => Change::Own,
        (Event::Abandon { .. }, Answer::Done) => Change::Pool,
        (Event::Refill { .. }, Answer::Refilled(_)) => Change::Pool,
        _ => Change::Nothing,
    }
}
