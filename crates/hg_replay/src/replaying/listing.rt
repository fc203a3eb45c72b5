//! A listing: a Look at each place of the segments that a worker holds. Of a page its block places
//! are looked at, since the others are home, and a Look at one of them gives no row.

ghost use Rattle.std.specs.Prelude.{◌≡◌, ◌+◌, ◌*◌, ◌≤◌, ◌<◌, true, List, [], ◌∷◌, filter};
ghost use Rattle.std.specs.List.{range_with_len};
ghost use Rattle.hg_choice.specs.ChosenSteps.{Chosen};
ghost use Rattle.hg_machine.specs.declared.Answer.{Answer};
ghost use Rattle.hg_machine.specs.Holders.{holds};
ghost use Rattle.hg_place.specs.declared.geometry.TheConstants.{MAX_SEGMENTS, SEGMENT_PAGES};
ghost use Rattle.hg_place.specs.declared.geometry.TheConstants.{PAGE_PLACES};
ghost use Rattle.hg_replay.specs.Listings.{held_among, held_places, looks};
ghost use Rattle.hg_replay.specs.Looked.{Looked};
ghost use Rattle.hg_replay.specs.Rows.{is_row};
ghost use Rattle.hg_replay.specs.Text.{listing_text};
ghost use Rattle.hg_replay.specs.Writes.{Emits};

use crate::replaying::output::Output;
use crate::replaying::sink::Sink;
use hg_core::Core;
use hg_machine::{Answer, Event};
use hg_place::{Actor, PAGE_PLACES, SEGMENT_PAGES, SEGMENT_PLACES, place_at};

fn is_row(answer: Answer) -> bool
    ensures { result ≡ is_row answer }
{
    matches!(answer, Answer::Listed(_))
}

/// Looks at a place of a segment by its number there, gives the row to be written where there is
/// one, and tells how many there are: one or none.
fn look<W: Sink>(
    core: &mut Core,
    worker: u8,
    actor: Actor,
    segment: u8,
    number: usize,
    output: &mut Output,
    out: &mut W,
) -> u32
    requires worker { worker < core.old.state.policy.workers }
    requires segment { segment < MAX_SEGMENTS }
    requires number { number < SEGMENT_PLACES }
    ensures same { core.new ≡ core.old }
    ensures looked { Looked core.old worker actor
        ((segment * SEGMENT_PLACES + number) ∷ []) result
        (W.seen out.old) output.old (W.seen out.new) output.new }
    ensures few { result ≤ 1 }
{
    let place = place_at(usize::from(segment) * SEGMENT_PLACES + number);
    let answer = core.step(worker, Event::Look { actor, place });
    if !is_row(answer) {
        return 0;
    }
    output.put_answer(out, core.policy(), answer);
    1
}

/// Looks at the block places of a page of a segment that the worker holds, and tells how many rows
/// it gave to be written. A Look at any other place of the page is answered without a row, since
/// the place is home.
fn list_page<W: Sink>(
    core: &mut Core,
    worker: u8,
    actor: Actor,
    segment: u8,
    page: u8,
    output: &mut Output,
    out: &mut W,
) -> u32
    requires worker { worker < core.old.state.policy.workers }
    requires segment { segment < MAX_SEGMENTS }
    requires page { page < SEGMENT_PAGES }
    requires held { holds core.old.state worker segment ≡ true }
    ensures same { core.new ≡ core.old }
    ensures looked { Looked core.old worker actor
        (range_with_len (segment * SEGMENT_PLACES + page * PAGE_PLACES) PAGE_PLACES)
        result (W.seen out.old) output.old (W.seen out.new) output.new }
    ensures few { result ≤ PAGE_PLACES }
{
    let first = usize::from(page) * PAGE_PLACES;
    let mut rows = 0;
    for index in 0..core.block_places(segment, page) {
        let number = first + usize::from(index);
        rows += look(core, worker, actor, segment, number, output, out);
    }
    rows
}

/// Looks at each place of a segment, page by page, where the worker holds it, and else at none; and
/// tells how many rows it gave to be written.
fn list_held<W: Sink>(
    core: &mut Core,
    worker: u8,
    actor: Actor,
    segment: u8,
    output: &mut Output,
    out: &mut W,
) -> u32
    requires worker { worker < core.old.state.policy.workers }
    requires segment { segment < MAX_SEGMENTS }
    ensures same { core.new ≡ core.old }
    ensures looked { Looked core.old worker actor
        (held_among core.old.state worker
        (range_with_len (segment * SEGMENT_PLACES) SEGMENT_PLACES))
        result (W.seen out.old) output.old (W.seen out.new) output.new }
    ensures few { result ≤ SEGMENT_PLACES }
{
    if !core.holds(worker, segment) {
        return 0;
    }
    let mut rows = 0;
    for page in 0..SEGMENT_PAGES as u8 {
        rows += list_page(core, worker, actor, segment, page, output, out);
    }
    rows
}

/// Emits the rows of what the worker holds to be written, and tells how many there are.
fn list_rows<W: Sink>(
    core: &mut Core,
    worker: u8,
    actor: Actor,
    output: &mut Output,
    out: &mut W,
) -> u32
    requires { worker < core.old.state.policy.workers }
    ensures same { core.new ≡ core.old }
    ensures looked { Looked core.old worker actor (held_places core.old.state worker)
        result (W.seen out.old) output.old (W.seen out.new) output.new }
{
    let mut rows = 0;
    for segment in 0..core.policy().segments() {
        rows += list_held(core, worker, actor, segment, output, out);
    }
    rows
}

/// Emits the listing of what the worker holds to be written.
pub(crate) fn list<W: Sink>(
    core: &mut Core,
    worker: u8,
    actor: Actor,
    output: &mut Output,
    out: &mut W,
)
    requires { worker < core.old.state.policy.workers }
    ensures same { core.new ≡ core.old }
    ensures listed { (answers : List Answer)
        × Chosen core.old (looks core.old.state worker actor) answers core.old
        × Emits (W.seen out.old) output.old (W.seen out.new) output.new
        (listing_text core.old.state.policy (filter is_row answers)) }
{
    let rows = list_rows(core, worker, actor, output, out);
    output.put_listing_end(out, rows);
}
