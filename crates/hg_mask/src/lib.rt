//! Marks of a segment's pages, one bit each: which are without a class, and where a run of them
//! begins.
#![tactic(auto)]

ghost use Rattle.std.specs.Prelude.{◌≡◌, ◌<◌, ◌≤◌, ◌+◌, ◌-◌, ◌^◌, ◌↔◌, ◌⊎◌, ℕ, None, Some, IfSome, IfNone};
ghost use Rattle.std.specs.Prelude.{IsTrue};
ghost use Rattle.hg_mask.specs.Marks.{IsRunOf, IsFirstRun};
ghost use Rattle.std.specs.Int.{bit_at};

/// Whether a page is marked.
pub fn is_marked(marks: u16, page: u8) -> bool
    requires { page < 16 }
    ensures { IsTrue result ↔ (bit_at marks page ≡ 1) }
{
    marks >> page & 1 == 1
}

/// Where so many marked pages stand one behind the other: marked is the first of each run.
pub fn starts(marks: u16, count: u8) -> u16
    requires some { 1 ≤ count }
    requires few { count ≤ 16 }
    ensures { (page : ℕ) → (bit_at result page ≡ 1) ↔ IsRunOf marks count page }
{
    let mut starts = marks;
    for ahead in 1..count {
        starts &= marks >> ahead;
    }
    starts
}

/// The lowest marked page.
pub fn lowest(marks: u16) -> Option<u8>
    ensures first { IfSome result (IsFirstRun marks) }
    ensures none { IfNone result ((page : ℕ) → page < 16 → bit_at marks page ≡ 0) }
{
    if marks == 0 {
        return None;
    }
    Some(marks.trailing_zeros() as u8)
}

/// Marks so many pages from one on.
pub fn mark(marks: u16, from: u8, count: u8) -> u16
    requires within { from + count ≤ 16 }
    ensures inside { (page : ℕ) → from ≤ page → page < from + count → bit_at result page ≡ 1 }
    ensures outside { (page : ℕ) → (page < from) ⊎ (from + count ≤ page)
        → bit_at result page ≡ bit_at marks page }
{
    marks | run(from, count)
}

/// Takes the marks of so many pages from one on.
pub fn unmark(marks: u16, from: u8, count: u8) -> u16
    requires within { from + count ≤ 16 }
    ensures inside { (page : ℕ) → from ≤ page → page < from + count → bit_at result page ≡ 0 }
    ensures outside { (page : ℕ) → (page < from) ⊎ (from + count ≤ page)
        → bit_at result page ≡ bit_at marks page }
{
    marks & !run(from, count)
}

/// The marks of so many pages from one on, and no others.
fn run(from: u8, count: u8) -> u16
    requires within { from + count ≤ 16 }
    ensures { result ≡ 2 ^ (from + count) - 2 ^ from }
{
    ((1u32 << (from + count)) - (1u32 << from)) as u16
}
