//! What stands: a line for each fact, or a picture.

ghost use Rattle.std.specs.Prelude.{◌≡◌, IfOk};
ghost use Rattle.hg_state.specs.Standing.{standing_lines, standing_text};

use crate::blocks::{push_left, push_segments, push_tenants};
use crate::costs::{Granted, push_costs};
use crate::form::{Drawing, Form, View};
use crate::picture::picture;
use crate::workers::push_workers;
use hg_core::Core;
use std::alloc::{AllocError, Global};

/// What stands, a line for each fact.
#[tactic(auto, unfolding(crate::specs::Standing::standing_lines))]
fn lines(
    alloc: Global,
    form: Form,
    core: &Core,
    orphans: &[u8],
    blocks: &[Granted],
) -> Result<Vec<u8>, AllocError>
    ensures { IfOk result
        (λ text. text.items ≡ standing_lines form core.now.state orphans.now blocks.now) }
{
    let mut out = Vec::new(alloc);
    push_workers(alloc, &mut out, form, core)?;
    push_left(alloc, &mut out, form, core, orphans)?;
    push_tenants(&mut out, form, core)?;
    push_segments(&mut out, form, core)?;
    push_costs(alloc, &mut out, form, core, blocks)?;
    Ok(out)
}

/// What stands. As text and as JSON: of each worker the segments that it holds, what it has in hand,
/// and what counts against whose limit, in bytes; orphans, oldest first, and fresh segments; the
/// blocks of each tenant; of each segment its blocks, and its places that are sent or worn; of each
/// page that has a class, the bytes of a block, how many places its blocks have, and how many of
/// these are live, parted, worn or free; and of each class how many blocks of it stand, and how many
/// were given out, each with the bytes that were asked for and those that these blocks have. As a map
/// and as an SVG file: the pages, with each of their places.
///
/// A core doesn't tell its orphans, nor what was asked for: who serves its events notes the one by
/// `note_orphans` and the other by `note_granted`, from none when it opens. A picture doesn't need
/// them. Bytes above what 64 bits hold are told as the greatest number of 64 bits. Its one error is
/// want of memory.
pub fn stands(
    alloc: Global,
    view: View,
    core: &Core,
    orphans: &[u8],
    blocks: &[Granted],
) -> Result<Vec<u8>, AllocError>
    ensures { IfOk result
        (λ text. text.items ≡ standing_text view core.now.state orphans.now blocks.now) }
{
    match view {
        View::Text => lines(alloc, Form::Text, core, orphans, blocks),
        View::Json => lines(alloc, Form::Json, core, orphans, blocks),
        View::Map => picture(alloc, Drawing::Map, core),
        View::Svg => picture(alloc, Drawing::Svg, core),
    }
}
