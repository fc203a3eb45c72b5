//! Pages, in lines.

ghost use Rattle.std.specs.Prelude.{◌≡◌, ◌+◌, ◌-◌, ◌*◌, ◌<◌, ◌≤◌, ◌++◌, OnOk};
ghost use Rattle.std.specs.List.{flat_map};
ghost use Rattle.hg_place.specs.declared.geometry.TheConstants.{MAX_SEGMENTS, SEGMENT_PAGES, WORD_BYTES};
ghost use Rattle.hg_size.specs.Runs.{reaches};
ghost use Rattle.hg_machine.specs.State.{class_at};
ghost use Rattle.hg_core.specs.BlockPlaces.{first_place};
ghost use Rattle.hg_state.specs.Pages.{count_of, counts_text, free_of, is_behind, page_line, page_text};
ghost use Rattle.hg_state.specs.Pages.{pages_in, text_by};

use crate::form::{Form, Word, push_counted, push_word};
use hg_core::{Core, PlaceKind};
use hg_place::{PAGE_PLACES, SEGMENT_PAGES, WORD_BYTES};
use hg_size::{Class, block_words, pages_of, per_page};
use std::alloc::AllocError;

/// The number of the first place of a page.
pub(crate) fn first_place(segment: u8, page: u8) -> usize
    ensures { result ≡ first_place segment page }
{
    (usize::from(segment) * SEGMENT_PAGES + usize::from(page)) * PAGE_PLACES
}

/// How many bytes a block of a class has.
pub(crate) fn class_bytes(class: Class) -> u64
    ensures { result ≡ WORD_BYTES * class }
{
    WORD_BYTES as u64 * u64::from(block_words(class))
}

/// How many places of a page of a class are of a kind, of those that its blocks have.
#[tactic(auto, unfolding(crate::specs::Pages::count_of))]
fn count_of(core: &Core, kind: PlaceKind, segment: u8, page: u8, class: Class) -> usize
    requires segment { segment < MAX_SEGMENTS }
    requires page { page < SEGMENT_PAGES }
    ensures { result ≡ count_of core.now.state kind segment page class }
{
    let places = usize::from(per_page(class));
    core.count(kind, first_place(segment, page), places)
}

/// How many of them are free.
#[tactic(auto, unfolding(crate::specs::Pages::free_of))]
pub(crate) fn free_of(core: &Core, segment: u8, page: u8, class: Class) -> usize
    requires segment { segment < MAX_SEGMENTS }
    requires page { page < SEGMENT_PAGES }
    ensures { result ≡ free_of core.now.state segment page class }
{
    usize::from(per_page(class))
        .saturating_sub(count_of(core, PlaceKind::Live, segment, page, class))
        .saturating_sub(count_of(core, PlaceKind::Parted, segment, page, class))
        .saturating_sub(count_of(core, PlaceKind::Worn, segment, page, class))
}

/// Whether a block of a page of this class reaches over the page so many behind it.
fn reaches(class: Option<Class>, behind: u8) -> bool
    ensures { result ≡ reaches class behind }
{
    match class {
        Some(class) => behind < pages_of(class),
        None => false,
    }
}

/// Whether a block of the page so many before this one reaches over it.
fn is_reached(core: &Core, segment: u8, page: u8, back: u8) -> bool
    requires page { page < SEGMENT_PAGES }
    requires back { back ≤ page }
    ensures { result ≡ reaches
        (class_at core.now.state (segment * SEGMENT_PAGES + page - back)) back }
{
    reaches(core.page_class(segment, page - back), back)
}

/// Whether a page lies behind the first of a block of several pages.
pub(crate) fn is_behind(core: &Core, segment: u8, page: u8) -> bool
    requires { page < SEGMENT_PAGES }
    ensures { result ≡ is_behind core.now.state segment page }
{
    for before in 0..page {
        if is_reached(core, segment, page, before + 1) {
            return true;
        }
    }
    false
}

/// Appends how many places of a page of a class are what.
#[tactic(auto, unfolding(crate::specs::Pages::counts_text))]
fn push_counts(
    out: &mut Vec<u8>,
    form: Form,
    core: &Core,
    segment: u8,
    page: u8,
    class: Class,
) -> Result<(), AllocError>
    requires segment { segment < MAX_SEGMENTS }
    requires page { page < SEGMENT_PAGES }
    ensures { OnOk result (out.new.items
        ≡ out.old.items ++ counts_text form core.now.state segment page class) }
{
    let live = count_of(core, PlaceKind::Live, segment, page, class);
    let parted = count_of(core, PlaceKind::Parted, segment, page, class);
    let worn = count_of(core, PlaceKind::Worn, segment, page, class);
    push_counted(out, form, Word::Live, live as u64)?;
    push_counted(out, form, Word::Parted, parted as u64)?;
    push_counted(out, form, Word::Worn, worn as u64)?;
    push_counted(
        out,
        form,
        Word::Free,
        free_of(core, segment, page, class) as u64,
    )
}

/// Appends a page of a class.
#[tactic(auto, unfolding(crate::specs::Pages::page_line))]
fn push_page(
    out: &mut Vec<u8>,
    form: Form,
    core: &Core,
    segment: u8,
    page: u8,
    class: Class,
) -> Result<(), AllocError>
    requires segment { segment < MAX_SEGMENTS }
    requires page { page < SEGMENT_PAGES }
    ensures { OnOk result (out.new.items
        ≡ out.old.items ++ page_line form core.now.state segment page class) }
{
    push_counted(out, form, Word::PageOf, u64::from(segment))?;
    push_counted(out, form, Word::Page, u64::from(page))?;
    push_counted(out, form, Word::PageClass, class_bytes(class))?;
    push_counted(out, form, Word::Places, u64::from(per_page(class)))?;
    push_counts(out, form, core, segment, page, class)?;
    push_word(out, form, Word::End)
}

/// Appends a page, where it has this class.
fn push_page_by(
    out: &mut Vec<u8>,
    form: Form,
    core: &Core,
    segment: u8,
    page: u8,
    class: Option<Class>,
) -> Result<(), AllocError>
    requires segment { segment < MAX_SEGMENTS }
    requires page { page < SEGMENT_PAGES }
    ensures { OnOk result (out.new.items
        ≡ out.old.items ++ text_by form core.now.state segment page class) }
{
    match class {
        Some(class) => push_page(out, form, core, segment, page, class),
        None => Ok(()),
    }
}

/// Appends a page, where it has a class.
#[tactic(auto, unfolding(crate::specs::Pages::page_text))]
fn push_page_text(
    out: &mut Vec<u8>,
    form: Form,
    core: &Core,
    segment: u8,
    page: u8,
) -> Result<(), AllocError>
    requires segment { segment < MAX_SEGMENTS }
    requires page { page < SEGMENT_PAGES }
    ensures { OnOk result (out.new.items
        ≡ out.old.items ++ page_text form core.now.state segment page) }
{
    push_page_by(
        out,
        form,
        core,
        segment,
        page,
        core.page_class(segment, page),
    )
}

/// Appends the pages of a segment that have a class.
pub(crate) fn push_pages(
    out: &mut Vec<u8>,
    form: Form,
    core: &Core,
    segment: u8,
) -> Result<(), AllocError>
    requires { segment < MAX_SEGMENTS }
    ensures { OnOk result (out.new.items ≡ out.old.items
        ++ flat_map (page_text form core.now.state segment) pages_in) }
{
    for page in 0..SEGMENT_PAGES as u8 {
        push_page_text(out, form, core, segment, page)?;
    }
    Ok(())
}
