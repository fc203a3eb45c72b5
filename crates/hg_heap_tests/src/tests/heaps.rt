//! A heap under a policy, and calls on it.

ghost use Rattle.hg_place.specs.Lives.{IsLiveWord};

use hg_heap::{Heap, Refused};
use hg_place::{Actor, Handle, MAX_SEGMENTS, PAGE_PLACES, Place, PlainWords, SEGMENT_PAGES, pack};
use hg_policy::Policy;
use hg_policy_text::read_policy;
use hg_queue::ARENAS;
use hg_remote::RemoteList;
use hg_segment::Segment;
use std::alloc::Global;
use std::process::Abort;

/// The tenants.
pub const ALICE: Actor = Actor(0);

pub const BOB: Actor = Actor(1);

/// A stranger.
pub const NOBODY: Actor = Actor(255);

/// The arenas: of segments 0 and 1, and of segment 2.
pub const MAIN: u8 = 0;

pub const VAULT: u8 = 1;

/// Two tenants, two arenas and three segments, and as many generations as there may be.
pub static POLICY: &str = "version = 1
workers = 2
tenant = [ {name = \"alice\", limit = 8192}, {name = \"bob\", limit = 64} ]
arena = [ {name = \"main\", segments = 2},
  {name = \"vault\", segments = 1, exclusive = [\"alice\"]} ]
grant = [ {owner = \"alice\", to = \"bob\", rights = [\"read\", \"free\"]} ]
";

/// A heap and the policy of its segments. A function that has one ends with `drop`: at the end of a
/// scope each of its many parts would be let go in the function's own proof.
#[derive(Drop)]
pub struct Tried {
    pub policy: Policy,
    pub heap: Heap<PlainWords>,
}

/// A segment of which no place was ever given out.
pub fn fresh(rt: &impl Abort, alloc: Global, policy: &Policy, number: u8) -> Segment<PlainWords> {
    assert!(rt; (number as usize) < MAX_SEGMENTS);
    let arena = policy.arena_of(number).expect(rt, "an arena");
    let slots = PlainWords::new(alloc, number).expect(rt, "memory");
    Segment::new(alloc, number, arena, policy.max_generation(), slots).expect(rt, "memory")
}

impl Tried {
    /// A heap without segments.
    pub fn new(rt: &impl Abort, alloc: Global, text: &str) -> Tried {
        let policy = read_policy(alloc, text.as_bytes()).expect(rt, "a policy");
        let heap = Heap::new(alloc).expect(rt, "memory");
        Tried { policy, heap }
    }

    /// A segment comes to the heap.
    pub fn adopt(&mut self, rt: &impl Abort, segment: Segment<PlainWords>) {
        let number = segment.number();
        assert!(rt; !self.heap.holds(number));
        assert!(rt; segment.arena() < ARENAS);
        self.heap.adopt(segment);
        assert!(rt; self.heap.holds(number));
    }

    /// A segment comes of which no place was ever given out.
    pub fn adopt_fresh(&mut self, rt: &impl Abort, alloc: Global, number: u8) {
        let segment = fresh(rt, alloc, &self.policy, number);
        self.adopt(rt, segment);
    }

    /// Gives out a block.
    pub fn alloc(
        &mut self,
        rt: &impl Abort,
        actor: Actor,
        arena: u8,
        bytes: u64,
    ) -> Result<Handle, Refused> {
        assert!(rt; self.heap.is_of(&self.policy));
        self.heap.alloc(&self.policy, actor, arena, bytes)
    }

    /// Frees a block.
    pub fn free(&mut self, actor: Actor, handle: Handle) -> Result<(), Refused> {
        self.heap.free_here(&self.policy, actor, handle)
    }

    /// Reads a word of a block.
    pub fn read(&mut self, actor: Actor, handle: Handle, index: u32) -> Result<u64, Refused> {
        self.heap.read(&self.policy, actor, handle, index)
    }

    /// Writes a word of a block.
    pub fn write(
        &mut self,
        actor: Actor,
        handle: Handle,
        index: u32,
        value: u64,
    ) -> Result<(), Refused> {
        self.heap.write(&self.policy, actor, handle, index, value)
    }
}

/// A handle, by its numbers.
pub fn handle(rt: &impl Abort, segment: u8, page: u8, index: u16, generation: u32) -> Handle {
    assert!(rt; (segment as usize) < MAX_SEGMENTS && (page as usize) < SEGMENT_PAGES);
    assert!(rt; (index as usize) < PAGE_PLACES && generation >= 1);
    Handle {
        place: Place {
            segment,
            page,
            index,
        },
        generation,
    }
}

/// The word of a live block.
pub fn live(rt: &impl Abort, generation: u32, owner: u8) -> u64
    ensures { IsLiveWord result }
{
    assert!(rt; generation > 0 && owner < 64);
    pack(generation, owner, true)
}

/// Parts a place of a segment whose word must be this.
fn part(rt: &impl Abort, segment: &mut Segment<PlainWords>, place: Place, word: u64)
    requires { IsLiveWord word }
{
    assert!(rt; segment.number() == place.segment);
    assert_eq!(rt; segment.part(place, word), Ok(()));
}

/// Sends a place that isn't on its way yet.
pub fn send(rt: &impl Abort, remote: &mut RemoteList, place: Place) {
    assert_eq!(rt; remote.push(place.page, place.index), Ok(()));
}

/// A worker that doesn't hold the segment frees a block of an owner, and the place is sent.
pub fn free_far(
    rt: &impl Abort,
    segment: &mut Segment<PlainWords>,
    remote: &mut RemoteList,
    handle: Handle,
    owner: u8,
) {
    let word = live(rt, handle.generation, owner);
    part(rt, segment, handle.place, word);
    send(rt, remote, handle.place);
}
