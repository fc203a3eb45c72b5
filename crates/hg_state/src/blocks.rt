//! Blocks by tenant and by segment, and the segments that nobody holds, in lines.

ghost use Rattle.std.specs.Prelude.{◌≡◌, ◌+◌, ◌==◌, ◌<◌, ◌≤◌, ◌++◌, IfOk, OnOk, decimal, length};
ghost use Rattle.std.specs.List.{flat_map, list_any};
ghost use Rattle.hg_place.specs.declared.geometry.TheConstants.{MAX_SEGMENTS};
ghost use Rattle.hg_show.specs.Parts.{tenants_in};
ghost use Rattle.hg_state.specs.Blocks.{count_in, fresh_in, is_apart, left_text, segment_line};
ghost use Rattle.hg_state.specs.Blocks.{segment_text, segments_line, tenant_line};
ghost use Rattle.hg_state.specs.Words.{word_of};
ghost use Rattle.hg_state.specs.Workers.{segments_in};

use crate::form::{Form, Word, push_counted, push_named, push_word};
use crate::pages::push_pages;
use crate::sent::sent_in;
use crate::workers::{name_of, push_kept, push_numbers};
use hg_core::{Core, PlaceKind};
use hg_place::SEGMENT_PLACES;
use std::alloc::{AllocError, Global};

/// Whether a segment is among these.
fn is_among(segments: &[u8], segment: u8) -> bool
    ensures { result ≡ list_any (λ other. other == segment) segments.now }
{
    segments.iter().any(|other| *other == segment)
}

/// Whether nobody holds the segment, and it isn't among these orphans.
fn is_fresh(core: &Core, orphans: &[u8], segment: u8) -> bool
    ensures { result ≡ is_apart core.now.state orphans.now segment }
{
    core.holder(segment).is_none() && !is_among(orphans, segment)
}

/// The segments that nobody held yet.
fn fresh(alloc: Global, core: &Core, orphans: &[u8]) -> Result<Vec<u8>, AllocError>
    ensures { IfOk result (λ fresh. fresh.items ≡ fresh_in core.now.state orphans.now) }
{
    let mut fresh = Vec::new(alloc);
    for segment in 0..core.policy().segments() {
        push_kept(&mut fresh, is_fresh(core, orphans, segment), segment)?;
    }
    Ok(fresh)
}

/// Appends segments behind a word.
#[tactic(auto, unfolding(crate::specs::Blocks::segments_line))]
fn push_segments_line(
    out: &mut Vec<u8>,
    form: Form,
    word: Word,
    segments: &[u8],
) -> Result<(), AllocError>
    ensures { OnOk result (out.new.items ≡ out.old.items ++ segments_line form word segments.now) }
{
    push_word(out, form, word)?;
    push_numbers(out, form, segments)?;
    push_word(out, form, Word::End)
}

/// Appends the segments that nobody holds: orphans, oldest first, and fresh ones.
#[tactic(auto, unfolding(crate::specs::Blocks::left_text))]
pub(crate) fn push_left(
    alloc: Global,
    out: &mut Vec<u8>,
    form: Form,
    core: &Core,
    orphans: &[u8],
) -> Result<(), AllocError>
    ensures { OnOk result (out.new.items
        ≡ out.old.items ++ left_text form core.now.state orphans.now) }
{
    let fresh = fresh(alloc, core, orphans)?;
    push_segments_line(out, form, Word::Orphans, orphans)?;
    push_segments_line(out, form, Word::Fresh, &fresh)
}

/// How many places of so many segments, from one on, are of a kind.
#[tactic(auto, unfolding(crate::specs::Blocks::count_in))]
fn count_in(core: &Core, kind: PlaceKind, segment: u8, many: u8) -> usize
    requires { segment + many ≤ MAX_SEGMENTS }
    ensures { result ≡ count_in core.now.state kind segment many }
{
    core.count(
        kind,
        usize::from(segment) * SEGMENT_PLACES,
        usize::from(many) * SEGMENT_PLACES,
    )
}

/// Appends how many places of all segments are of a kind.
fn push_in_all(
    out: &mut Vec<u8>,
    form: Form,
    core: &Core,
    word: Word,
    kind: PlaceKind,
) -> Result<(), AllocError>
    ensures { OnOk result (out.new.items ≡ out.old.items ++ word_of form word
        ++ decimal (count_in core.now.state kind 0 (length core.now.state.policy.segments))) }
{
    let segments = core.policy().segments();
    push_counted(out, form, word, count_in(core, kind, 0, segments) as u64)
}

/// Appends a tenant: how many blocks it has.
#[tactic(auto, unfolding(crate::specs::Blocks::tenant_line))]
fn push_tenant(out: &mut Vec<u8>, form: Form, core: &Core, tenant: u8) -> Result<(), AllocError>
    ensures { OnOk result (out.new.items ≡ out.old.items ++ tenant_line form core.now.state tenant) }
{
    push_named(out, form, Word::Tenant, name_of(core.policy(), tenant))?;
    push_in_all(out, form, core, Word::TenantLive, PlaceKind::LiveOf(tenant))?;
    push_in_all(out, form, core, Word::Parted, PlaceKind::PartedOf(tenant))?;
    push_word(out, form, Word::End)
}

/// Appends the tenants.
pub(crate) fn push_tenants(out: &mut Vec<u8>, form: Form, core: &Core) -> Result<(), AllocError>
    ensures { OnOk result (out.new.items ≡ out.old.items
        ++ flat_map (tenant_line form core.now.state) (tenants_in core.now.state.policy)) }
{
    for tenant in 0..core.policy().tenants() {
        push_tenant(out, form, core, tenant)?;
    }
    Ok(())
}

/// Appends how many places of a segment are of a kind.
fn push_in_segment(
    out: &mut Vec<u8>,
    form: Form,
    core: &Core,
    word: Word,
    kind: PlaceKind,
    segment: u8,
) -> Result<(), AllocError>
    requires { segment < MAX_SEGMENTS }
    ensures { OnOk result (out.new.items ≡ out.old.items ++ word_of form word
        ++ decimal (count_in core.now.state kind segment 1)) }
{
    push_counted(out, form, word, count_in(core, kind, segment, 1) as u64)
}

/// Appends a segment: how many blocks it has, how many of its places are sent, and how many worn.
#[tactic(auto, unfolding(crate::specs::Blocks::segment_line))]
fn push_segment(out: &mut Vec<u8>, form: Form, core: &Core, segment: u8) -> Result<(), AllocError>
    requires { segment < MAX_SEGMENTS }
    ensures { OnOk result (out.new.items ≡ out.old.items ++ segment_line form core.now.state segment) }
{
    push_counted(out, form, Word::Segment, u64::from(segment))?;
    push_in_segment(out, form, core, Word::Live, PlaceKind::Live, segment)?;
    push_in_segment(out, form, core, Word::Parted, PlaceKind::Parted, segment)?;
    push_counted(out, form, Word::Sent, sent_in(core, segment, 1) as u64)?;
    push_in_segment(out, form, core, Word::Worn, PlaceKind::Worn, segment)?;
    push_word(out, form, Word::End)
}

/// Appends a segment and its pages.
fn push_segment_text(
    out: &mut Vec<u8>,
    form: Form,
    core: &Core,
    segment: u8,
) -> Result<(), AllocError>
    requires { segment < MAX_SEGMENTS }
    ensures { OnOk result (out.new.items ≡ out.old.items ++ segment_text form core.now.state segment) }
{
    push_segment(out, form, core, segment)?;
    push_pages(out, form, core, segment)
}

/// Appends the segments, each with its pages.
pub(crate) fn push_segments(out: &mut Vec<u8>, form: Form, core: &Core) -> Result<(), AllocError>
    ensures { OnOk result (out.new.items ≡ out.old.items
        ++ flat_map (segment_text form core.now.state) (segments_in core.now.state)) }
{
    for segment in 0..core.policy().segments() {
        push_segment_text(out, form, core, segment)?;
    }
    Ok(())
}
