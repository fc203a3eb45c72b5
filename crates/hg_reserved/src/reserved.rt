ghost use Rattle.std.specs.Prelude.{◌≡◌, ℕ, ◌+◌, ◌∷◌, ◌++◌, [], ◌-◌, ◌<◌, ◌≤◌, ◌⊎◌};
ghost use Rattle.std.specs.Prelude.{length, replicate, slice_index_or, slice_set, slice_range};
ghost use Rattle.std.specs.Prelude.{vec_capacity, vec_len, IfOk};
ghost use Rattle.hg_reserved.specs.Overlaid.{overlaid};

use crate::Blank;
use std::alloc::{AllocError, Global};
use std::marker::Model;

/// So many values, each of which is blank until it is written, seen as their list. `new` asks for
/// the memory of all of them; a page of it is touched when a value on it or behind it is first
/// written. No other call asks for memory.
#[derive(Drop)]
pub struct Reserved<T: Blank> {
    // the values up to the last that was written, with room for all
    touched: Vec<T>,
}

impl<T: Blank> Model for Reserved<T> {
    ghost use Rattle.std.specs.Prelude.{List, vec_capacity};
    ghost use Rattle.hg_reserved.specs.Shown.{shown};

    ghost Value = { List T };

    ghost view = { λ r. shown T.blank r.touched.items (vec_capacity r.touched) };
}

impl<T: Blank> Reserved<T> {
    /// So many blank values.
    pub fn new(alloc: Global, count: usize) -> Result<Reserved<T>, AllocError>
        ensures all { IfOk result (λ values. length values ≡ count) }
        ensures blank { IfOk result
            (λ values. (at : ℕ) → slice_index_or values at T.blank ≡ T.blank) }
    {
        let touched = Vec::with_capacity(alloc, count)?;
        Ok(Reserved { touched })
    }

    /// The value at `at`, or a blank one where there is none.
    pub fn get(&self, at: usize) -> T
        ensures { result ≡ slice_index_or self.now at T.blank }
    {
        if at < self.touched.len() {
            self.touched[at]
        } else {
            T::blank()
        }
    }

    /// Makes the value at `at` another.
    pub fn set(&mut self, at: usize, value: T)
        requires { at < length self.old }
        ensures { self.new ≡ slice_set self.old at value }
    {
        if at < self.touched.len() {
            self.touched[at] = value;
        } else {
            extend(&mut self.touched, at, value);
        }
    }

    /// Makes `count` values from `from` on blank. Those that weren't touched stay so.
    pub fn clear(&mut self, from: usize, count: usize)
        requires { from + count ≤ length self.old }
        ensures blank { (at : ℕ) → from ≤ at → at < from + count
            → slice_index_or self.new at T.blank ≡ T.blank }
        ensures others { (at : ℕ) → (at < from) ⊎ (from + count ≤ at)
            → slice_index_or self.new at T.blank ≡ slice_index_or self.old at T.blank }
        ensures all { length self.new ≡ length self.old }
    {
        let touched = self.touched.len();
        let end = (from + count).min(touched);
        if from < end {
            erase(&mut self.touched, from, end);
        }
    }

    /// Copies as many values as `into` holds from `from` on.
    pub fn copy_out(&self, from: usize, into: &mut [T])
        requires { from + length into.old ≤ length self.now }
        ensures { into.new ≡ slice_range self.now from (from + length into.old) }
    {
        let touched = self.touched.len();
        let end = from + into.len();
        if end <= touched {
            into.copy_from_slice(&self.touched[from..end]);
        } else {
            for at in 0..into.len() {
                into[at] = self.get(from + at);
            }
        }
    }

    /// Makes the values from `from` on others, as many as `values` has.
    pub fn copy_in(&mut self, from: usize, values: &[T])
        requires { from + length values.now ≤ length self.old }
        ensures { self.new ≡ overlaid self.old from values.now }
    {
        let touched = self.touched.len();
        let end = from + values.len();
        if end <= touched {
            replace(&mut self.touched, from, end, values);
        } else if from < end {
            extend(&mut self.touched, end - 1, T::blank());
            replace(&mut self.touched, from, end, values);
        }
    }
}

/// Puts a value behind others, at `at`, with blanks between, where there is room for it. It stands
/// apart, so that a write that needn't extend is short.
#[cold]
#[inline(never)]
fn extend<T: Blank>(values: &mut Vec<T>, at: usize, value: T)
    requires behind { vec_len values.old ≤ at }
    requires room { at < vec_capacity values.old }
    ensures items { values.new.items ≡ (values.old.items
        ++ replicate (at - length values.old.items) T.blank) ++ value ∷ [] }
    ensures room { vec_capacity values.new ≡ vec_capacity values.old }
{
    for _ in values.len()..at {
        values.push_reserved(T::blank());
    }
    values.push_reserved(value);
}

/// Makes the values from `from` to `end` others.
fn replace<T: Blank>(values: &mut Vec<T>, from: usize, end: usize, others: &[T])
    requires all { from + length others.now ≡ end }
    requires inside { end ≤ vec_len values.old }
    ensures written { (at : ℕ) → at < length others.now
        → slice_index_or values.new.items (from + at) T.blank
        ≡ slice_index_or others.now at T.blank }
    ensures others { (at : ℕ) → (at < from) ⊎ (end ≤ at)
        → slice_index_or values.new.items at T.blank ≡ slice_index_or values.old.items at T.blank }
    ensures all { vec_len values.new ≡ vec_len values.old }
    ensures room { vec_capacity values.new ≡ vec_capacity values.old }
{
    values[from..end].copy_from_slice(others);
}

/// Makes the values from `from` to `end` blank.
fn erase<T: Blank>(values: &mut Vec<T>, from: usize, end: usize)
    requires rising { from ≤ end }
    requires inside { end ≤ vec_len values.old }
    ensures blank { (at : ℕ) → from ≤ at → at < end
        → slice_index_or values.new.items at T.blank ≡ T.blank }
    ensures others { (at : ℕ) → (at < from) ⊎ (end ≤ at)
        → slice_index_or values.new.items at T.blank ≡ slice_index_or values.old.items at T.blank }
    ensures all { vec_len values.new ≡ vec_len values.old }
    ensures room { vec_capacity values.new ≡ vec_capacity values.old }
{
    fill(&mut values[from..end]);
}

/// Makes all values blank.
fn fill<T: Blank>(values: &mut [T])
    ensures { values.new ≡ replicate (length values.old) T.blank }
{
    for at in 0..values.len() {
        values[at] = T::blank();
    }
}
