//! Owners in bands, so that no line of the matrix is long.

ghost use Rattle.std.specs.Prelude.{◌≡◌, ◌≤◌, ◌^◌, ◌+◌, nat_lt};
ghost use Rattle.hg_show.specs.Bands.{column_width, is_full, line_width};

use crate::parts::name_of;
use hg_policy::Policy;

/// How many columns of text a line has at most, where each owner's column has room in it.
const MOST: usize = 100;

/// How many the head of a row has.
const HEAD: usize = 18;

/// How many the column of an owner has.
fn column_width(policy: &Policy, owner: u8) -> usize
    ensures width { result ≡ column_width policy.now owner }
    ensures range { result ≤ 2 ^ 63 }
{
    1 + name_of(policy, owner).len().max(4)
}

/// Whether the lines of a band would be too long with one owner more.
fn is_long(policy: &Policy, band: &[u8], owner: u8) -> bool
    ensures { result ≡ nat_lt 100 (line_width policy.now band.now + column_width policy.now owner) }
{
    let mut width = HEAD;
    for one in band {
        width += column_width(policy, *one);
        if MOST < width {
            return true;
        }
    }
    MOST < width + column_width(policy, owner)
}

/// Whether a band has an owner, and its lines would be too long with one more.
pub(crate) fn is_full(policy: &Policy, band: &[u8], owner: u8) -> bool
    ensures { result ≡ is_full policy.now band.now owner }
{
    !band.is_empty() && is_long(policy, band, owner)
}
