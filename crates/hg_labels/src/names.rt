//! Names, each once.

ghost use Rattle.std.specs.Prelude.{◌≡◌, ◌∷◌, ◌++◌, [], true, false, not, position, bytes_eq};
ghost use Rattle.std.specs.Prelude.{◌↔◌, IsTrue, IfOk, OnErr};
ghost use Rattle.std.specs.List.{list_any};
ghost use Rattle.hg_labels.specs.Indexes.{texts, StandsAt};

use crate::hash::hash_of;
use crate::index::{Index, is_named};
use std::alloc::{AllocError, Global};
use std::marker::Model;

/// How many buckets there are at first.
const FIRST: usize = 16;

/// There are twice as many buckets once there are so many names for each.
const FILL: usize = 4;

/// Names in the order in which they came, each once.
#[derive(Drop)]
pub struct Names<'a> {
    names: Vec<&'a str>,
    index: Index<'a>,
}

impl<'a> Model for Names<'a> {
    ghost use Rattle.std.specs.Prelude.{ℕ, List};
    ghost use Rattle.hg_labels.specs.Indexes.{texts, IsKept};

    ghost Value = { List (List ℕ) };

    ghost view = { λ kept. texts kept.names.items };

    ghost invariant = { λ kept. IsKept kept.index (texts kept.names.items) };
}

impl<'a> Names<'a> {
    /// No name. Takes no memory.
    pub fn new(alloc: Global) -> Names<'a>
        ensures { result ≡ [] }
    {
        Names {
            names: Vec::new(alloc),
            index: Index::new(alloc),
        }
    }

    /// The names, each at its number.
    pub fn names(&self) -> &[&'a str]
        ensures { texts result.now ≡ self.now }
    {
        &self.names
    }

    /// Whether a name stands at that number.
    pub fn is_at(&self, number: usize, name: &str) -> bool
        ensures { IsTrue result ↔ StandsAt self.now number name.now }
    {
        is_named(&self.names, number, name)
    }

    /// The number of a name, from 0.
    pub fn position_of(&self, name: &str) -> Option<usize>
        ensures { result ≡ position (λ known. bytes_eq name.now known) self.now }
    {
        self.index.find(&self.names, name, hash_of(name.as_bytes()))
    }

    /// A name goes behind the others, unless it is one of them. Tells whether it wasn't. An error
    /// comes where memory is short, and for a name behind 2^32 - 1 others.
    pub fn push(&mut self, name: &'a str) -> Result<bool, AllocError>
        ensures added { IfOk result
            (λ added. added ≡ not (list_any (λ known. bytes_eq name.now known) self.old)) }
        ensures new { IfOk result (λ added. added ≡ true → self.new ≡ self.old ++ name.now ∷ []) }
        ensures known { IfOk result (λ added. added ≡ false → self.new ≡ self.old) }
        ensures err { OnErr result (self.new ≡ self.old) }
    {
        let hash = hash_of(name.as_bytes());
        if self.index.find(&self.names, name, hash).is_some() {
            return Ok(false);
        }
        self.make_room()?;
        self.index.enter(name, hash, self.names.len())?;
        self.names.push(name)?;
        Ok(true)
    }

    /// Doubles the buckets where there are too few for one name more.
    fn make_room(&mut self) -> Result<(), AllocError>
        ensures { self.new ≡ self.old }
    {
        let buckets = self.index.bucket_count();
        if self.names.len() / FILL < buckets {
            return Ok(());
        }
        let alloc = *self.names.allocator();
        let doubled = buckets.saturating_mul(2).max(FIRST);
        self.index = Index::of(alloc, &self.names, doubled)?;
        Ok(())
    }
}
