//! What each part of a picture begins and ends with, and what is drawn of a place.

ghost use Rattle.std.specs.Prelude.{◌≡◌, ◌<◌, ◌++◌, OnOk};
ghost use Rattle.std.specs.List.{flat_map};
ghost use Rattle.hg_place.specs.declared.geometry.TheConstants.{MAX_SEGMENTS, SEGMENT_PAGES};
ghost use Rattle.hg_state.specs.Pages.{pages_in};
ghost use Rattle.hg_state.specs.Shapes.{cell_shape, class_mark, head_shape, is_left, map_page};
ghost use Rattle.hg_state.specs.Shapes.{map_row, map_row_end, mark_by, mark_of};
ghost use Rattle.hg_state.specs.Shapes.{owned_square, page_back, page_front, page_mark};
ghost use Rattle.hg_state.specs.Shapes.{picture_back, row_end, row_shape, square, square_of, svg_head};
ghost use Rattle.hg_state.specs.Shapes.{svg_colour, svg_name, svg_page, svg_row, svg_tenant, tenant_shape};

use crate::cell::Cell;
use crate::form::Drawing;
use crate::pages::{class_bytes, free_of, is_behind};
use crate::pieces::{Piece, push_numbered, push_piece, text_of};
use crate::workers::name_of;
use hg_core::Core;
use hg_place::SEGMENT_PAGES;
use hg_policy::Policy;
use hg_size::{Class, pages_of, per_page};
use hg_text::push;
use std::alloc::AllocError;

/// The character of a place.
fn mark_of(cell: Cell) -> &'static str
    ensures { result.now ≡ mark_of cell }
{
    match cell {
        Cell::Live(_) => "#",
        Cell::Parted(_) => "o",
        Cell::Worn => "*",
        Cell::Free => ".",
    }
}

/// Appends a square.
#[tactic(auto, unfolding(crate::specs::Shapes::square))]
fn push_square(out: &mut Vec<u8>, index: u16, style: &str) -> Result<(), AllocError>
    ensures { OnOk result (out.new.items ≡ out.old.items ++ square index style.now) }
{
    push_numbered(out, Piece::SquareAt, u64::from(index))?;
    push_piece(out, Piece::SquareStyle)?;
    push(out, style)?;
    push_piece(out, Piece::SquareEnd)
}

/// Appends a square in the colour of a tenant.
#[tactic(auto, unfolding(crate::specs::Shapes::owned_square))]
fn push_owned(out: &mut Vec<u8>, index: u16, owner: u8, end: Piece) -> Result<(), AllocError>
    ensures { OnOk result (out.new.items ≡ out.old.items ++ owned_square index owner end) }
{
    push_numbered(out, Piece::SquareAt, u64::from(index))?;
    push_numbered(out, Piece::SquareOwner, u64::from(owner))?;
    push_piece(out, end)
}

/// Appends the square of a place.
fn push_square_of(out: &mut Vec<u8>, index: u16, cell: Cell) -> Result<(), AllocError>
    ensures { OnOk result (out.new.items ≡ out.old.items ++ square_of index cell) }
{
    match cell {
        Cell::Live(owner) => push_owned(out, index, owner, Piece::SquareEnd),
        Cell::Parted(owner) => push_owned(out, index, owner, Piece::PaleEnd),
        Cell::Worn => push_square(out, index, "w"),
        Cell::Free => Ok(()),
    }
}

/// Appends what is drawn of a place.
pub(crate) fn push_cell(
    out: &mut Vec<u8>,
    drawing: Drawing,
    index: u16,
    cell: Cell,
) -> Result<(), AllocError>
    ensures { OnOk result (out.new.items ≡ out.old.items ++ cell_shape drawing index cell) }
{
    match drawing {
        Drawing::Map => push(out, mark_of(cell)),
        Drawing::Svg => push_square_of(out, index, cell),
    }
}

/// The character of a page with so many places, of which so many are free.
fn mark_by(places: usize, free: usize) -> &'static str
    ensures { result.now ≡ mark_by places free }
{
    if free == 0 {
        "#"
    } else if free == places {
        "-"
    } else {
        "+"
    }
}

/// The character of a page of this class, if it has one.
fn class_mark(core: &Core, segment: u8, page: u8, class: Option<Class>) -> &'static str
    requires segment { segment < MAX_SEGMENTS }
    requires page { page < SEGMENT_PAGES }
    ensures { result.now ≡ class_mark core.now.state segment page class }
{
    match class {
        Some(class) => mark_by(
            usize::from(per_page(class)),
            free_of(core, segment, page, class),
        ),
        None => ".",
    }
}

/// The character of a page in its segment's row.
#[tactic(auto, unfolding(crate::specs::Shapes::page_mark))]
fn page_mark(core: &Core, segment: u8, page: u8) -> &'static str
    requires segment { segment < MAX_SEGMENTS }
    requires page { page < SEGMENT_PAGES }
    ensures { result.now ≡ page_mark core.now.state segment page }
{
    if is_behind(core, segment, page) {
        return "=";
    }
    class_mark(core, segment, page, core.page_class(segment, page))
}

/// Appends it.
fn push_page_mark(out: &mut Vec<u8>, core: &Core, segment: u8, page: u8) -> Result<(), AllocError>
    requires segment { segment < MAX_SEGMENTS }
    requires page { page < SEGMENT_PAGES }
    ensures { OnOk result (out.new.items ≡ out.old.items ++ page_mark core.now.state segment page) }
{
    push(out, page_mark(core, segment, page))
}

/// Appends the characters of the pages of a segment.
fn push_page_marks(out: &mut Vec<u8>, core: &Core, segment: u8) -> Result<(), AllocError>
    requires { segment < MAX_SEGMENTS }
    ensures { OnOk result (out.new.items ≡ out.old.items
        ++ flat_map (page_mark core.now.state segment) pages_in) }
{
    for page in 0..SEGMENT_PAGES as u8 {
        push_page_mark(out, core, segment, page)?;
    }
    Ok(())
}

/// Whether nobody holds the segment.
fn is_left(core: &Core, segment: u8) -> bool
    ensures { result ≡ is_left core.now.state segment }
{
    core.holder(segment).is_none()
}

/// What a row of a map ends with.
fn map_row_end(is_left: bool) -> Piece
    ensures { result ≡ map_row_end is_left }
{
    if is_left { Piece::Left } else { Piece::LineEnd }
}

/// Appends a segment's row of a map.
#[tactic(auto, unfolding(crate::specs::Shapes::map_row))]
fn push_map_row(out: &mut Vec<u8>, core: &Core, segment: u8) -> Result<(), AllocError>
    requires { segment < MAX_SEGMENTS }
    ensures { OnOk result (out.new.items ≡ out.old.items ++ map_row core.now.state segment) }
{
    push_numbered(out, Piece::Segment, u64::from(segment))?;
    push_piece(out, Piece::Gap)?;
    push_page_marks(out, core, segment)?;
    push_piece(out, map_row_end(is_left(core, segment)))
}

/// What a row ends with.
fn row_end(is_left: bool) -> Piece
    ensures { result ≡ row_end is_left }
{
    if is_left {
        Piece::LeftRowEnd
    } else {
        Piece::RowEnd
    }
}

/// Appends a segment's row of an SVG file.
#[tactic(auto, unfolding(crate::specs::Shapes::svg_row))]
fn push_svg_row(out: &mut Vec<u8>, segment: u8, is_left: bool) -> Result<(), AllocError>
    ensures { OnOk result (out.new.items ≡ out.old.items ++ svg_row segment is_left) }
{
    let number = u64::from(segment);
    push_numbered(out, Piece::LabelAt, 25 + 26 * number)?;
    push_numbered(out, Piece::Label, number)?;
    push_numbered(out, Piece::RowAt, 10 + 26 * number)?;
    push_piece(out, row_end(is_left))
}

/// Appends a segment's row, before its pages.
pub(crate) fn push_row(
    out: &mut Vec<u8>,
    drawing: Drawing,
    core: &Core,
    segment: u8,
) -> Result<(), AllocError>
    requires { segment < MAX_SEGMENTS }
    ensures { OnOk result (out.new.items ≡ out.old.items ++ row_shape drawing core.now.state segment) }
{
    match drawing {
        Drawing::Map => push_map_row(out, core, segment),
        Drawing::Svg => push_svg_row(out, segment, is_left(core, segment)),
    }
}

/// Appends what a page of a map begins with.
#[tactic(auto, unfolding(crate::specs::Shapes::map_page))]
fn push_map_page(out: &mut Vec<u8>, segment: u8, page: u8, class: Class) -> Result<(), AllocError>
    ensures { OnOk result (out.new.items ≡ out.old.items ++ map_page segment page class) }
{
    push_numbered(out, Piece::PageOf, u64::from(segment))?;
    push_numbered(out, Piece::PageDot, u64::from(page))?;
    push_numbered(out, Piece::Gap, class_bytes(class))?;
    push_piece(out, Piece::Gap)
}

/// Appends what a page of an SVG file begins with.
#[tactic(auto, unfolding(crate::specs::Shapes::svg_page))]
fn push_svg_page(out: &mut Vec<u8>, segment: u8, page: u8, class: Class) -> Result<(), AllocError>
    ensures { OnOk result (out.new.items ≡ out.old.items ++ svg_page segment page class) }
{
    let places = u64::from(per_page(class));
    push_numbered(out, Piece::PageAt, 60 + 60 * u64::from(page))?;
    push_numbered(out, Piece::PageDown, 10 + 26 * u64::from(segment))?;
    push_numbered(out, Piece::PageWide, 60 * u64::from(pages_of(class)) - 4)?;
    push_numbered(out, Piece::PageScale, places)?;
    push_numbered(out, Piece::PageWidth, places)?;
    push_piece(out, Piece::PageFront)
}

/// Appends what a page begins with.
pub(crate) fn push_page_front(
    out: &mut Vec<u8>,
    drawing: Drawing,
    segment: u8,
    page: u8,
    class: Class,
) -> Result<(), AllocError>
    ensures { OnOk result (out.new.items
        ≡ out.old.items ++ page_front drawing segment page class) }
{
    match drawing {
        Drawing::Map => push_map_page(out, segment, page, class),
        Drawing::Svg => push_svg_page(out, segment, page, class),
    }
}

/// What a page ends with.
pub(crate) fn page_back(drawing: Drawing) -> &'static str
    ensures { result.now ≡ page_back drawing }
{
    match drawing {
        Drawing::Map => "\n",
        Drawing::Svg => text_of(Piece::PageBack),
    }
}

/// Appends what an SVG file begins with.
#[tactic(auto, unfolding(crate::specs::Shapes::svg_head))]
fn push_svg_head(out: &mut Vec<u8>, policy: &Policy) -> Result<(), AllocError>
    ensures { OnOk result (out.new.items ≡ out.old.items ++ svg_head policy.now) }
{
    let segments = u64::from(policy.segments());
    let tenants = u64::from(policy.tenants());
    push_numbered(out, Piece::Head, 60 + 26 * segments + 20 * tenants)?;
    push_numbered(out, Piece::Style, 30 + 26 * segments)?;
    push_piece(out, Piece::Meaning)
}

/// Appends what a picture begins with: what its marks mean.
pub(crate) fn push_head(
    out: &mut Vec<u8>,
    drawing: Drawing,
    policy: &Policy,
) -> Result<(), AllocError>
    ensures { OnOk result (out.new.items ≡ out.old.items ++ head_shape drawing policy.now) }
{
    match drawing {
        Drawing::Map => {
            push_piece(out, Piece::MapPages)?;
            push_piece(out, Piece::MapPlaces)
        }
        Drawing::Svg => push_svg_head(out, policy),
    }
}

/// Appends a tenant's colour.
#[tactic(auto, unfolding(crate::specs::Shapes::svg_colour))]
fn push_svg_colour(out: &mut Vec<u8>, tenant: u8) -> Result<(), AllocError>
    ensures { OnOk result (out.new.items ≡ out.old.items ++ svg_colour tenant) }
{
    let number = u64::from(tenant);
    push_numbered(out, Piece::Colour, number)?;
    push_numbered(out, Piece::Hue, number * 137 % 360)?;
    push_numbered(out, Piece::Lightness, 40 + 15 * (number / 21))
}

/// Appends a tenant's name, behind its colour.
#[tactic(auto, unfolding(crate::specs::Shapes::svg_name))]
fn push_svg_name(out: &mut Vec<u8>, policy: &Policy, tenant: u8) -> Result<(), AllocError>
    ensures { OnOk result (out.new.items ≡ out.old.items ++ svg_name policy.now tenant) }
{
    let number = u64::from(tenant);
    let segments = u64::from(policy.segments());
    push_numbered(out, Piece::ColourAt, 40 + 26 * segments + 20 * number)?;
    push_numbered(out, Piece::ColourOwner, number)?;
    push_numbered(out, Piece::NameAt, 52 + 26 * segments + 20 * number)?;
    push_piece(out, Piece::Label)?;
    push(out, name_of(policy, tenant))?;
    push_piece(out, Piece::NameEnd)
}

/// Appends both.
#[tactic(auto, unfolding(crate::specs::Shapes::svg_tenant))]
fn push_svg_tenant(out: &mut Vec<u8>, policy: &Policy, tenant: u8) -> Result<(), AllocError>
    ensures { OnOk result (out.new.items ≡ out.old.items ++ svg_tenant policy.now tenant) }
{
    push_svg_colour(out, tenant)?;
    push_svg_name(out, policy, tenant)
}

/// Appends what is told of a tenant.
pub(crate) fn push_tenant_shape(
    out: &mut Vec<u8>,
    drawing: Drawing,
    core: &Core,
    tenant: u8,
) -> Result<(), AllocError>
    ensures { OnOk result (out.new.items
        ≡ out.old.items ++ tenant_shape drawing core.now.state.policy tenant) }
{
    match drawing {
        Drawing::Map => Ok(()),
        Drawing::Svg => push_svg_tenant(out, core.policy(), tenant),
    }
}

/// What a picture ends with.
pub(crate) fn picture_back(drawing: Drawing) -> &'static str
    ensures { result.now ≡ picture_back drawing }
{
    match drawing {
        Drawing::Map => "",
        Drawing::Svg => text_of(Piece::PageBack),
    }
}
