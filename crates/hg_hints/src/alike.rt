//! Names that are like another.

ghost use Rattle.std.specs.Prelude.{◌≡◌, IfOk, find, map, option_map};
ghost use Rattle.hg_hints.specs.Near.{is_at, is_short, near, near_by};

use std::alloc::{AllocError, Global};
use strsim::osa_distance;

/// How many bytes a text may have that is like another.
const LONGEST: usize = 64;

/// Whether a text is so short.
fn is_short(name: &str) -> bool
    ensures { result ≡ is_short name.now }
{
    name.len() <= LONGEST
}

/// Whether so many edits lead from one name to another.
fn is_at(alloc: Global, n: usize, name: &str, other: &str) -> Result<bool, AllocError>
    ensures { IfOk result (λ is. is ≡ is_at n name.now other.now) }
{
    if !is_short(other) {
        return Ok(false);
    }
    let edits = osa_distance(alloc, name, other)?;
    Ok(edits == n)
}

/// The first of these names at so many edits from another.
fn first_at<'a>(
    alloc: Global,
    names: &[&'a str],
    name: &str,
    n: usize,
) -> Result<Option<&'a str>, AllocError>
    ensures { IfOk result (λ found. option_map (λ other. other.now) found
        ≡ find (is_at n name.now) (map (λ other. other.now) names.now)) }
{
    for other in names {
        if is_at(alloc, n, name, other)? {
            return Ok(Some(*other));
        }
    }
    Ok(None)
}

/// The same, where these are at most half of the name's bytes, and it isn't too long.
fn near_by<'a>(
    alloc: Global,
    names: &[&'a str],
    name: &str,
    n: usize,
) -> Result<Option<&'a str>, AllocError>
    ensures { IfOk result (λ found. option_map (λ other. other.now) found
        ≡ near_by n (map (λ other. other.now) names.now) name.now) }
{
    if name.len() / 2 < n || !is_short(name) {
        return Ok(None);
    }
    first_at(alloc, names, name, n)
}

/// The first name at one edit, and where there is none the first at two: a character more, less or
/// another one, or two next to each other in turn. They are at most half of the name's bytes, and a text
/// of more than 64 bytes is like no other. Its one error is want of memory.
pub fn near<'a>(alloc: Global, names: &[&'a str], name: &str) -> Result<Option<&'a str>, AllocError>
    ensures { IfOk result (λ found. option_map (λ other. other.now) found
        ≡ near (map (λ other. other.now) names.now) name.now) }
{
    match near_by(alloc, names, name, 1)? {
        Some(other) => Ok(Some(other)),
        None => near_by(alloc, names, name, 2),
    }
}
