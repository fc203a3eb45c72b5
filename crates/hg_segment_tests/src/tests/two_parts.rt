//! Seats of workers end lives in threads of their own, meet, and take places home.

ghost use Rattle.std.specs.Prelude.{◌≡◌, ◌<◌, false};
ghost use Rattle.hg_place.specs.Lives.{IsLiveWord};
ghost use Rattle.hg_place.specs.Standings.{slot_of};
ghost use Rattle.hg_table.specs.Seats.{word_at};
ghost use Rattle.hg_table.specs.Named.{table_of};

use crate::tests::policies::policy;
use hg_place::{Place, SlotWords, Standing, pack};
use hg_table::{LifeTable, Seats, SegmentSeat, TableName, WorkerSeat};
use std::alloc::Global;
use std::marker::Brand;
use std::process::Abort;
use std::test::Fail;
use std::thread::{Threads, join};

/// The word of a live block of tenant 7.
fn live(rt: &impl Abort, generation: u32) -> u64
    ensures { IsLiveWord result }
{
    assert!(rt; generation > 0);
    pack(generation, 7, true)
}

/// A place of segment 0.
fn place() -> Place
    ensures { result.segment ≡ 0 }
{
    Place {
        segment: 0,
        page: 3,
        index: 5,
    }
}

/// Gives out the place, if it is home, to tenant 7.
fn open<N: TableName>(rt: &impl Abort, seat: &mut SegmentSeat<N>, place: Place) -> u32 {
    assert!(rt; seat.segment() == place.segment);
    match seat.standing(place) {
        Standing::Home(generation) => assert!(rt; generation < u32::MAX),
        Standing::Open(_, _) => assert!(rt; false, "it is open"),
    }
    seat.open(place, 7).generation
}

/// Takes the place home, if it is open.
fn take<N: TableName>(rt: &impl Abort, seat: &mut SegmentSeat<N>, place: Place) -> Result<(), u64> {
    assert!(rt; seat.segment() == place.segment);
    assert!(rt; matches!(&seat.standing(place), Standing::Open(_, _)));
    seat.take(place)
}

/// The word of a place, as the segment's seat and a worker's see it together.
fn meet<N: TableName>(
    rt: &impl Abort,
    seat: &mut SegmentSeat<N>,
    other: &mut WorkerSeat<N>,
    place: Place,
) -> u64 {
    assert!(rt; seat.segment() == place.segment);
    seat.meet(other, place)
}

/// Two workers part one live place in two threads; then they meet, and it is taken home.
fn parted<N: TableName + Send + Sync, R: Threads + Abort + Sync>(
    rt: &R,
    alloc: Global,
    table: LifeTable,
) -> Result<(), Fail>
    requires { table_of table ≡ N.table }
{
    let Seats {
        mut segments,
        mut workers,
    } = table.open::<N>(alloc)?;
    assert_eq!(rt; segments.len(), 2);
    let other = segments.pop().ok_or("segment 1")?;
    let mut seat = segments.pop().ok_or("segment 0")?;
    let mut one = workers.pop().ok_or("worker 1")?;
    let mut two = workers.pop().ok_or("worker 0")?;
    let place = place();
    let generation = open(rt, &mut seat, place);
    let expected = live(rt, generation);
    assert_eq!(rt; take(rt, &mut seat, place), Err(expected));
    let (first, second) = join(
        rt,
        || one.part(place, expected),
        || two.part(place, expected),
    );
    let outcomes = (first, second);
    assert!(rt; matches!(&outcomes, (Ok(()), Err(_)) | (Err(_), Ok(()))));
    let freed = expected & !1;
    assert_eq!(rt; one.look(place), freed);
    assert_eq!(rt; one.meet(&mut two, place), freed);
    assert_eq!(rt; meet(rt, &mut seat, &mut two, place), freed);
    assert_eq!(rt; take(rt, &mut seat, place), Ok(()));
    assert_eq!(rt; open(rt, &mut seat, place), 2);
    let one = one.without_name().with_name::<N>();
    let seat = seat.without_name().with_name::<N>();
    seat.apart(other);
    Ok(())
}

// Two worker seats part one live place in two threads: one ends its life, the other finds it ended.
#[test]
fn two_parts(rt: HostRuntime) -> Result<(), Fail> {
    let alloc = rt.alloc();
    parted::<Brand, _>(&rt, alloc, LifeTable::new(alloc, &policy(alloc)?)?)
}
