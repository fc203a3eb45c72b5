//! Segments, pages and places, drawn.

ghost use Rattle.std.specs.Prelude.{◌≡◌, ◌+◌, ◌*◌, ◌<◌, ◌≤◌, ◌++◌, OnOk, IfOk};
ghost use Rattle.std.specs.List.{flat_map, range_with_len};
ghost use Rattle.hg_place.specs.declared.geometry.TheConstants.{MAX_SEGMENTS, SEGMENT_PAGES};
ghost use Rattle.hg_place.specs.declared.geometry.TheConstants.{SEGMENT_PLACES};
ghost use Rattle.hg_show.specs.Parts.{tenants_in};
ghost use Rattle.hg_state.specs.Pages.{pages_in};
ghost use Rattle.hg_state.specs.Pictures.{page_shape, picture, place_shape, segment_shape, shape_by};
ghost use Rattle.hg_state.specs.Shapes.{tenant_shape};
ghost use Rattle.hg_state.specs.Workers.{segments_in};

use crate::cell::cell_at;
use crate::form::Drawing;
use crate::pages::first_place;
use crate::shapes::{
    page_back, picture_back, push_cell, push_head, push_page_front, push_row, push_tenant_shape,
};
use hg_core::Core;
use hg_place::{SEGMENT_PAGES, place_at};
use hg_size::{Class, per_page};
use hg_text::push;
use std::alloc::{AllocError, Global};

/// Appends so many places, from the one of this number on.
fn push_places(
    out: &mut Vec<u8>,
    drawing: Drawing,
    core: &Core,
    first: usize,
    places: u16,
) -> Result<(), AllocError>
    requires { first + places ≤ MAX_SEGMENTS * SEGMENT_PLACES }
    ensures { OnOk result (out.new.items ≡ out.old.items
        ++ flat_map (place_shape drawing core.now.state first) (range_with_len 0 places)) }
{
    for index in 0..places {
        let place = place_at(first + usize::from(index));
        push_cell(out, drawing, index, cell_at(core, place))?;
    }
    Ok(())
}

/// Appends a page with its places, where it has this class.
fn push_shape_by(
    out: &mut Vec<u8>,
    drawing: Drawing,
    core: &Core,
    segment: u8,
    page: u8,
    class: Option<Class>,
) -> Result<(), AllocError>
    requires segment { segment < MAX_SEGMENTS }
    requires page { page < SEGMENT_PAGES }
    ensures { OnOk result (out.new.items
        ≡ out.old.items ++ shape_by drawing core.now.state segment page class) }
{
    let Some(class) = class else {
        return Ok(());
    };
    push_page_front(out, drawing, segment, page, class)?;
    push_places(
        out,
        drawing,
        core,
        first_place(segment, page),
        per_page(class),
    )?;
    push(out, page_back(drawing))
}

/// Appends a page with its places, where it has a class.
#[tactic(auto, unfolding(crate::specs::Pictures::page_shape))]
fn push_page_shape(
    out: &mut Vec<u8>,
    drawing: Drawing,
    core: &Core,
    segment: u8,
    page: u8,
) -> Result<(), AllocError>
    requires segment { segment < MAX_SEGMENTS }
    requires page { page < SEGMENT_PAGES }
    ensures { OnOk result (out.new.items
        ≡ out.old.items ++ page_shape drawing core.now.state segment page) }
{
    let class = core.page_class(segment, page);
    push_shape_by(out, drawing, core, segment, page, class)
}

/// Appends the pages of a segment.
fn push_page_shapes(
    out: &mut Vec<u8>,
    drawing: Drawing,
    core: &Core,
    segment: u8,
) -> Result<(), AllocError>
    requires { segment < MAX_SEGMENTS }
    ensures { OnOk result (out.new.items ≡ out.old.items
        ++ flat_map (page_shape drawing core.now.state segment) pages_in) }
{
    for page in 0..SEGMENT_PAGES as u8 {
        push_page_shape(out, drawing, core, segment, page)?;
    }
    Ok(())
}

/// Appends a segment with its pages.
#[tactic(auto, unfolding(crate::specs::Pictures::segment_shape))]
fn push_segment_shape(
    out: &mut Vec<u8>,
    drawing: Drawing,
    core: &Core,
    segment: u8,
) -> Result<(), AllocError>
    requires { segment < MAX_SEGMENTS }
    ensures { OnOk result (out.new.items
        ≡ out.old.items ++ segment_shape drawing core.now.state segment) }
{
    push_row(out, drawing, core, segment)?;
    push_page_shapes(out, drawing, core, segment)
}

/// Appends the segments.
fn push_segment_shapes(out: &mut Vec<u8>, drawing: Drawing, core: &Core) -> Result<(), AllocError>
    ensures { OnOk result (out.new.items ≡ out.old.items
        ++ flat_map (segment_shape drawing core.now.state) (segments_in core.now.state)) }
{
    for segment in 0..core.policy().segments() {
        push_segment_shape(out, drawing, core, segment)?;
    }
    Ok(())
}

/// Appends what is told of the tenants.
fn push_tenant_shapes(out: &mut Vec<u8>, drawing: Drawing, core: &Core) -> Result<(), AllocError>
    ensures { OnOk result (out.new.items ≡ out.old.items
        ++ flat_map (tenant_shape drawing core.now.state.policy) (tenants_in core.now.state.policy)) }
{
    for tenant in 0..core.policy().tenants() {
        push_tenant_shape(out, drawing, core, tenant)?;
    }
    Ok(())
}

/// The picture of what stands.
#[tactic(auto, unfolding(crate::specs::Pictures::picture))]
pub(crate) fn picture(alloc: Global, drawing: Drawing, core: &Core) -> Result<Vec<u8>, AllocError>
    ensures { IfOk result (λ text. text.items ≡ picture drawing core.now.state) }
{
    let mut out = Vec::new(alloc);
    push_head(&mut out, drawing, core.policy())?;
    push_segment_shapes(&mut out, drawing, core)?;
    push_tenant_shapes(&mut out, drawing, core)?;
    push(&mut out, picture_back(drawing))?;
    Ok(out)
}
