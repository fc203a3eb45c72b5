ghost use Rattle.std.specs.Prelude.{◌≡◌, ℕ, ◌<◌, ◌↔◌, [], length, slice_get};
ghost use Rattle.std.specs.Prelude.{None, Contains, IsTrue, IfOk};

use crate::links;
use hg_reserved::Reserved;
use std::alloc::{AllocError, Global};
use std::boxed::BoxedSlice;
use std::marker::Model;

/// Lists of entries by key, doubly linked by the entries' numbers. Entries and keys are counted
/// from 0, and how many there are is settled when the lists are made. A link is 0 at an end,
/// otherwise the number of an entry plus 1. No call but `new` takes memory, and none walks a list.
#[derive(Drop)]
pub struct IndexLists {
    // by key, the first entry
    heads: BoxedSlice<u16>,
    // by entry, the ones behind and before
    next: Reserved<u16>,
    prev: Reserved<u16>,
    // by entry, the key of its list plus 1, or 0 where it is in none
    owner: Reserved<u16>,
}

impl Model for IndexLists {
    ghost use Rattle.hg_lists.specs.Lists.{Lists};

    ghost Value = { Lists };

    ghost use Rattle.hg_lists.specs.Links.{lists_of, AreLinked};

    ghost view = { lists_of };

    ghost invariant = { AreLinked };
}

impl IndexLists {
    ghost use Rattle.hg_lists.specs.Lists.{list_of, IsNowhere, IsSomewhere, AreApart};
    ghost use Rattle.hg_lists.specs.Lists.{with_front, without_entry, follower};

    /// Empty lists for so many keys.
    pub fn new(alloc: Global, entries: u16, keys: u16) -> Result<IndexLists, AllocError>
        ensures empty { IfOk result (λ m. (key : ℕ) → list_of m key ≡ []) }
        ensures keys { IfOk result (λ m. length m.by_key ≡ keys) }
        ensures entries { IfOk result (λ m. m.entries ≡ entries) }
        ensures apart { IfOk result AreApart }
    {
        let heads = links::ends(alloc, keys)?;
        let next = Reserved::new(alloc, entries as usize)?;
        let prev = Reserved::new(alloc, entries as usize)?;
        let owner = Reserved::new(alloc, entries as usize)?;
        Ok(IndexLists {
            heads,
            next,
            prev,
            owner,
        })
    }

    /// Puts an entry that is in no list in front of a key's.
    pub fn push_front(&mut self, key: u16, entry: u16)
        requires key { key < length self.old.by_key }
        requires entry { entry < self.old.entries }
        requires nowhere { IsNowhere self.old entry }
        ensures pushed { self.new ≡ with_front self.old key entry }
        ensures apart { AreApart self.new }
    {
        let head = self.heads[key as usize];
        self.next.set(entry as usize, head);
        self.prev.set(entry as usize, 0);
        links::write(&mut self.prev, head, entry + 1);
        self.owner.set(entry as usize, key + 1);
        self.heads[key as usize] = entry + 1;
    }

    /// Takes an entry out of its list, if it is in one.
    pub fn remove(&mut self, entry: u16)
        requires { entry < self.old.entries }
        ensures removed { self.new ≡ without_entry self.old entry }
        ensures apart { AreApart self.new }
    {
        let owner = self.owner.get(entry as usize);
        if owner == 0 {
            return;
        }
        let before = self.prev.get(entry as usize);
        let after = self.next.get(entry as usize);
        links::write_first(&mut self.heads, owner - 1, before, after);
        links::write(&mut self.next, before, after);
        links::write(&mut self.prev, after, before);
        self.owner.set(entry as usize, 0);
    }

    /// The first entry of a key's list.
    pub fn front(&self, key: u16) -> Option<u16>
        requires { key < length self.now.by_key }
        ensures first { result ≡ slice_get (list_of self.now key) 0 }
        ensures apart { AreApart self.now }
    {
        links::entry_of(self.heads[key as usize])
    }

    /// The entry behind another in its list.
    pub fn next(&self, entry: u16) -> Option<u16>
        requires { entry < self.now.entries }
        ensures follows { (key : ℕ) → Contains (list_of self.now key) entry
            → result ≡ follower entry (list_of self.now key) }
        ensures nowhere { IsNowhere self.now entry → result ≡ None }
        ensures apart { AreApart self.now }
    {
        if self.owner.get(entry as usize) == 0 {
            return None;
        }
        links::entry_of(self.next.get(entry as usize))
    }

    /// Whether an entry is in a list.
    pub fn has(&self, entry: u16) -> bool
        requires { entry < self.now.entries }
        ensures there { IsTrue result ↔ IsSomewhere self.now entry }
        ensures apart { AreApart self.now }
    {
        self.owner.get(entry as usize) != 0
    }
}
