ghost use Rattle.std.specs.Prelude.{◌≡◌, ℕ, length, slice_index_or, vec_capacity, IfOk};
ghost use Rattle.std.specs.Box.{boxed_slice_items};

use std::alloc::{AllocError, Global};
use std::boxed::BoxedSlice;

/// So many copies of one value, in a boxed slice.
pub fn filled<T: Copy>(alloc: Global, value: T, count: usize) -> Result<BoxedSlice<T>, AllocError>
    ensures all { IfOk result (λ all. length (boxed_slice_items all) ≡ count) }
    ensures each { IfOk result (λ all. (at : ℕ)
        → slice_index_or (boxed_slice_items all) at value ≡ value) }
{
    Ok(copies(alloc, value, count)?.into_boxed_slice())
}

/// So many copies of one value, in a vector with room for no more.
fn copies<T: Copy>(alloc: Global, value: T, count: usize) -> Result<Vec<T>, AllocError>
    ensures all { IfOk result (λ all. length all.items ≡ count) }
    ensures each { IfOk result (λ all. (at : ℕ) → slice_index_or all.items at value ≡ value) }
    ensures room { IfOk result (λ all. vec_capacity all ≡ count) }
{
    let mut all = Vec::with_capacity(alloc, count)?;
    for _ in 0..count {
        all.push_reserved(value);
    }
    Ok(all)
}
