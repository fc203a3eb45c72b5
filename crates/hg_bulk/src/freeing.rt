//! All blocks of an owner.

ghost use Rattle.std.specs.Prelude.{◌≡◌, ◌<◌, ◌≤◌, ◌+◌, ◌*◌, true, [], ◌∷◌};
ghost use Rattle.std.specs.List.{range_with_len};
ghost use Rattle.hg_place.specs.declared.geometry.TheConstants.{MAX_SEGMENTS, SEGMENT_PLACES};
ghost use Rattle.hg_place.specs.declared.geometry.TheConstants.{SEGMENT_PAGES, PAGE_PLACES};
ghost use Rattle.hg_machine.specs.Holders.{holds};
ghost use Rattle.hg_machine.specs.Lists.{IsPartition};
ghost use Rattle.hg_machine.specs.Soundness.{IsSound};
ghost use Rattle.hg_core.specs.BlockPlaces.{first_place};
ghost use Rattle.hg_bulk.specs.Freeing.{FreesAll, FreesAmong};
ghost use Rattle.hg_bulk.specs.Later.{IsSameFrom};
ghost use Rattle.hg_bulk.specs.OwnBlocks.{IsOwnBlock};

use hg_core::Core;
use hg_place::{Actor, Handle, PAGE_PLACES, SEGMENT_PAGES, place_at};

/// The owner's own block at a place that the worker holds, if there is one.
fn own_block(core: &mut Core, worker: u8, owner: u8, number: usize) -> Option<Handle>
    requires worker { worker < core.old.state.policy.workers }
    requires number { number < MAX_SEGMENTS * SEGMENT_PLACES }
    ensures same { core.new ≡ core.old }
    ensures block { IsOwnBlock core.old.state worker owner number result }
    ensures kept { IsSound core.new.state × IsPartition core.new }
{
    let _policy = core.policy(); // so that what holds of the core is known before the Look
    match core.look(worker, Actor(owner), place_at(number)) {
        Ok(row) => {
            if row.owner == owner {
                Some(row.handle)
            } else {
                None
            }
        }
        Err(_) => None,
    }
}

/// Frees the owner's own block at a place, and tells how many it freed: one or none.
fn free_at(core: &mut Core, worker: u8, actor: Actor, owner: u8, number: usize) -> u32
    requires worker { worker < core.old.state.policy.workers }
    requires number { number < MAX_SEGMENTS * SEGMENT_PLACES }
    ensures freed { FreesAmong core.old worker actor owner (number ∷ []) result core.new }
    ensures later { IsSameFrom core.old.state core.new.state (number + 1) }
    ensures few { result ≤ 1 }
    ensures kept { IsSound core.new.state × IsPartition core.new }
{
    match own_block(core, worker, owner, number) {
        Some(handle) => match core.free(worker, actor, handle) {
            Ok(_) => 1,
            Err(_) => 0,
        },
        None => 0,
    }
}

/// Frees the owner's own blocks of a page of a segment that the worker holds. Its block places are
/// gone through; the others are home.
fn free_page(core: &mut Core, worker: u8, actor: Actor, owner: u8, segment: u8, page: u8) -> u32
    requires worker { worker < core.old.state.policy.workers }
    requires segment { segment < MAX_SEGMENTS }
    requires page { page < SEGMENT_PAGES }
    requires held { holds core.old.state worker segment ≡ true }
    ensures freed { FreesAmong core.old worker actor owner
        (range_with_len (first_place segment page) PAGE_PLACES) result core.new }
    ensures later { IsSameFrom core.old.state core.new.state
        (first_place segment page + PAGE_PLACES) }
    ensures few { result ≤ PAGE_PLACES }
    ensures kept { IsSound core.new.state × IsPartition core.new }
{
    let _policy = core.policy(); // so that what holds of the core is known before the first Free
    let first = (usize::from(segment) * SEGMENT_PAGES + usize::from(page)) * PAGE_PLACES;
    let many = core.block_places(segment, page);
    let mut freed = 0;
    for index in 0..many {
        freed += free_at(core, worker, actor, owner, first + usize::from(index));
    }
    freed
}

/// Frees the owner's own blocks of a segment, page by page. There are none where the worker doesn't
/// hold it.
fn free_segment(core: &mut Core, worker: u8, actor: Actor, owner: u8, segment: u8) -> u32
    requires worker { worker < core.old.state.policy.workers }
    requires segment { segment < MAX_SEGMENTS }
    ensures freed { FreesAmong core.old worker actor owner
        (range_with_len (segment * SEGMENT_PLACES) SEGMENT_PLACES) result core.new }
    ensures later { IsSameFrom core.old.state core.new.state
        (segment * SEGMENT_PLACES + SEGMENT_PLACES) }
    ensures few { result ≤ SEGMENT_PLACES }
    ensures kept { IsSound core.new.state × IsPartition core.new }
{
    let _policy = core.policy(); // so that what holds of the core is known where nothing is freed
    if !core.holds(worker, segment) {
        return 0;
    }
    let mut freed = 0;
    for page in 0..SEGMENT_PAGES as u8 {
        freed += free_page(core, worker, actor, owner, segment, page);
    }
    freed
}

/// Frees, for an actor, all blocks of an owner that the worker holds, in rising order of their
/// places, and tells how many: they are the Frees of these blocks, one after another. One that the
/// actor may not free is denied, and stays as it is.
pub fn free_all(core: &mut Core, worker: u8, actor: Actor, owner: u8) -> u32
    requires { worker < core.old.state.policy.workers }
    ensures freed { FreesAll core.old worker actor owner result core.new }
    ensures kept { IsSound core.new.state × IsPartition core.new }
{
    let mut freed = 0;
    for segment in 0..core.policy().segments() {
        freed += free_segment(core, worker, actor, owner, segment);
    }
    freed
}
