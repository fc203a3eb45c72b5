//! Where names are found.

ghost use Rattle.std.specs.Prelude.{◌≡◌, ◌≢◌, ◌↔◌, ◌<◌, ◌-◌, ◌+◌, ◌==◌, ℕ, List, []};
ghost use Rattle.std.specs.Prelude.{IfSome, IsNone, IfOk, OnOk, IsTrue, Contains, position, bit_and};
ghost use Rattle.std.specs.Bool.{OnTrue, OnFalse};
ghost use Rattle.hg_labels.specs.Hash.{hash_of};
ghost use Rattle.hg_labels.specs.Slots.{IsFull};
ghost use Rattle.hg_labels.specs.Indexes.{texts, StandsAt, home, spilled_at, Finds};
ghost use Rattle.hg_labels.specs.Indexes.{IsIndexOf, IsEachOnce};

use crate::hash::{hash_of, tag_of};
use crate::slot::{SLOTS, Slot};
use std::alloc::{AllocError, Global};
use std::collections::BTreeMap;

type Bucket = [Slot; SLOTS];

/// The numbers of names. A name's hash gives its bucket, which fills from the front; a name that
/// finds its bucket full is spilled. So a look-up goes over one bucket, and seldom down one tree.
#[derive(Drop)]
pub(crate) struct Index<'a> {
    buckets: Vec<Bucket>,
    spilled: BTreeMap<&'a str, usize>,
}

/// Which of so many buckets a hash gives.
fn home_of(hash: u64, buckets: usize) -> usize
    ensures { result ≡ bit_and hash (buckets - 1) }
{
    hash as usize & buckets.saturating_sub(1)
}

/// Whether a name stands at that number.
pub(crate) fn is_named(names: &[&str], number: usize, name: &str) -> bool
    ensures { IsTrue result ↔ StandsAt (texts names.now) number name.now }
{
    match names.get(number) {
        Some(known) => *known == name,
        None => false,
    }
}

/// The place of the first empty slot.
fn room_in(bucket: &Bucket) -> Option<usize>
    ensures first { result ≡ position (λ slot. slot.number == 0) bucket.now }
    ensures within { IfSome result (λ place. place < SLOTS) }
{
    bucket.iter().position(|slot| slot.is_empty())
}

/// The number in a slot, where the slot has the tag, and the name stands at that number.
fn number_in(slot: Slot, tag: u32, names: &[&str], name: &str) -> Option<usize>
    ensures some { IfSome result (λ number. StandsAt (texts names.now) number name.now) }
    ensures none { IsNone result → (number : ℕ)
        → StandsAt (texts names.now) number name.now
        → slot ≢ record { tag = tag; number = number + 1 } }
{
    let number = slot.number_under(tag)?;
    is_named(names, number, name).then_some(number)
}

/// The number of a name in a bucket, as it stands among the names.
fn find_in(bucket: &Bucket, tag: u32, names: &[&str], name: &str) -> Option<usize>
    ensures some { IfSome result (λ number. StandsAt (texts names.now) number name.now) }
    ensures none { IsNone result → (number : ℕ)
        → StandsAt (texts names.now) number name.now
        → Contains bucket.now (record { tag = tag; number = number + 1 }) → ⊥ }
{
    for slot in bucket {
        let found = number_in(*slot, tag, names, name);
        if found.is_some() {
            return found;
        }
    }
    None
}

impl<'a> Index<'a> {
    /// No name. Takes no memory.
    pub(crate) fn new(alloc: Global) -> Index<'a>
        ensures { IsIndexOf result [] }
    {
        Index {
            buckets: Vec::new(alloc),
            spilled: BTreeMap::new(alloc),
        }
    }

    /// The names with their places as numbers, in so many buckets.
    pub(crate) fn of(
        alloc: Global,
        names: &[&'a str],
        buckets: usize,
    ) -> Result<Index<'a>, AllocError>
        requires { IsEachOnce (texts names.now) }
        ensures { IfOk result (λ index. IsIndexOf index (texts names.now)) }
    {
        let mut index = Index {
            buckets: vec![in alloc; [Slot::EMPTY; SLOTS]; buckets]?,
            spilled: BTreeMap::new(alloc),
        };
        for (number, name) in names.iter().enumerate() {
            index.enter(*name, hash_of(name.as_bytes()), number)?;
        }
        Ok(index)
    }

    /// How many buckets there are.
    pub(crate) fn bucket_count(&self) -> usize {
        self.buckets.len()
    }

    /// The number of a name in the tree, as it stands among the names.
    fn find_spilled(&self, names: &[&str], name: &str) -> Option<usize>
        ensures some { IfSome result (λ number. StandsAt (texts names.now) number name.now) }
        ensures none { IsNone result → (number : ℕ)
            → StandsAt (texts names.now) number name.now
            → spilled_at self.now name.now ≢ Some number }
    {
        let number = *self.spilled.get(name)?;
        is_named(names, number, name).then_some(number)
    }

    /// The number of a name with this hash, as it stands among the names.
    pub(crate) fn find(&self, names: &[&str], name: &str, hash: u64) -> Option<usize>
        ensures some { IfSome result (λ number. StandsAt (texts names.now) number name.now) }
        ensures none { IsNone result → (number : ℕ)
            → StandsAt (texts names.now) number name.now
            → Finds self.now hash name.now number → ⊥ }
    {
        if let Some(bucket) = self.buckets.get(home_of(hash, self.buckets.len())) {
            let found = find_in(bucket, tag_of(hash), names, name);
            if found.is_some() {
                return found;
            }
            if room_in(bucket).is_some() {
                return None;
            }
        }
        self.find_spilled(names, name)
    }

    /// Puts a slot into the bucket that the hash gives, if that has room. Tells whether it had.
    fn put(&mut self, hash: u64, slot: Slot) -> bool
        ensures put { OnTrue result (Contains (home self.new.buckets.items hash) slot) }
        ensures full { OnFalse result (IsFull (home self.new.buckets.items hash)) }
        ensures spilled { self.new.spilled ≡ self.old.spilled }
        ensures stays { (at : ℕ) (other : Slot) → other.number ≢ 0
            → Contains (home self.old.buckets.items at) other
            → Contains (home self.new.buckets.items at) other }
        ensures stays_full { (at : ℕ) → slot.number ≢ 0
            → IsFull (home self.old.buckets.items at)
            → IsFull (home self.new.buckets.items at) }
    {
        let home = home_of(hash, self.buckets.len());
        let Some(bucket) = self.buckets.get(home) else {
            return false;
        };
        let Some(place) = room_in(bucket) else {
            return false;
        };
        self.buckets[home][place] = slot;
        true
    }

    /// Keeps a name's number. The other names are found as before, also after an error, which
    /// comes where memory is short or the number is above 2^32 - 2.
    pub(crate) fn enter(
        &mut self,
        name: &'a str,
        hash: u64,
        number: usize,
    ) -> Result<(), AllocError>
        ensures ok { OnOk result (Finds self.new hash name.now number) }
        ensures others { (at : ℕ) (other : List ℕ) (place : ℕ) → (other ≡ name.now → place ≡ number)
            → Finds self.old at other place → Finds self.new at other place }
    {
        let slot = Slot::new(hash, number).ok_or(AllocError)?;
        if !self.put(hash, slot) {
            self.spilled.insert(name, number)?;
        }
        Ok(())
    }
}
