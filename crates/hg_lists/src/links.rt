ghost use Rattle.std.specs.Prelude.{◌≡◌, ℕ, ◌≤◌, ◌<◌, ◌-◌, length, ◌==◌, if◌then◌else◌};
ghost use Rattle.std.specs.Prelude.{slice_index, vec_capacity, IfOk, None, Some};
ghost use Rattle.std.specs.Box.{boxed_slice_items};
ghost use Rattle.hg_lists.specs.Links.{write_at, first_at};

use hg_reserved::Reserved;
use std::alloc::{AllocError, Global};
use std::boxed::BoxedSlice;

/// So many links that lead nowhere.
pub fn ends(alloc: Global, count: u16) -> Result<BoxedSlice<u16>, AllocError>
    ensures all { IfOk result (λ links. length (boxed_slice_items links) ≡ count) }
    ensures zero { IfOk result (λ links. (at : ℕ)
        → slice_index (boxed_slice_items links) at ≡ 0) }
{
    let links = zeros(alloc, count)?;
    Ok(links.into_boxed_slice())
}

/// So many zeros, in a vector with room for no more.
fn zeros(alloc: Global, count: u16) -> Result<Vec<u16>, AllocError>
    ensures all { IfOk result (λ links. length links.items ≡ count) }
    ensures zero { IfOk result (λ links. (at : ℕ) → slice_index links.items at ≡ 0) }
    ensures room { IfOk result (λ links. vec_capacity links ≡ count) }
{
    let mut links = Vec::with_capacity(alloc, count as usize)?;
    for at in 0..count as usize {
        // where there is room, `insert` keeps to it, and says so
        links.insert(at, 0)?;
    }
    Ok(links)
}

/// Where a link leads to.
pub fn entry_of(link: u16) -> Option<u16>
    ensures { result ≡ (if link == 0 then None else Some (link - 1)) }
{
    link.checked_sub(1)
}

/// Writes where a link leads to, if anywhere.
pub fn write(links: &mut Reserved<u16>, link: u16, value: u16)
    requires { link ≤ length links.old }
    ensures { links.new ≡ write_at links.old link value }
{
    if link != 0 {
        links.set(link as usize - 1, value);
    }
}

/// Writes what a key's list begins with, where nothing stands before.
pub fn write_first(heads: &mut BoxedSlice<u16>, key: u16, before: u16, after: u16)
    requires { key < length (boxed_slice_items heads.old) }
    ensures { boxed_slice_items heads.new
        ≡ first_at (boxed_slice_items heads.old) key before after }
{
    if before == 0 {
        heads[key as usize] = after;
    }
}
