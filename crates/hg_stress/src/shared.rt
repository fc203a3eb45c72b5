use crate::gate::Gate;
use crate::lives::Lives;
use crate::plan::Plan;
use hg_place::Handle;
use std::alloc::{AllocError, Global};
use std::sync::atomic::{AtomicU64, Ordering};

/// What all workers of a run share beside the service.
#[derive(Drop)]
pub struct Shared {
    pub gate: Gate,
    /// Words of handles, 0 where none lies.
    shelf: Vec<AtomicU64>,
    /// For each segment how often it came to a worker.
    came: Vec<AtomicU64>,
    pub lives: Lives,
}

/// So many words, all of them 0.
fn zeros(alloc: Global, count: usize) -> Result<Vec<AtomicU64>, AllocError> {
    let mut words = Vec::with_capacity(alloc, count)?;
    for _ in 0..count {
        words.push(AtomicU64::new(0))?;
    }
    Ok(words)
}

impl Shared {
    pub fn new(alloc: Global, plan: Plan) -> Result<Shared, AllocError> {
        let lives = Lives::none(alloc, plan.segments)?;
        let shelf = zeros(alloc, plan.places)?;
        let came = zeros(alloc, usize::from(plan.segments))?;
        Ok(Shared {
            gate: Gate::new(),
            shelf,
            came,
            lives,
        })
    }

    /// The handle that lies at a place of the shelf.
    pub fn handle(&self, at: usize) -> Option<Handle> {
        Handle::from_u64(self.shelf.get(at)?.load(Ordering::SeqCst))
    }

    /// Puts a handle at a place of the shelf, and whether none lay there.
    pub fn put(&self, at: usize, handle: Handle) -> bool {
        self.move_to(at, 0, handle.to_u64())
    }

    /// Takes a handle off, if it lies there.
    pub fn take_off(&self, at: usize, handle: Handle) {
        let _ = self.move_to(at, handle.to_u64(), 0);
    }

    fn move_to(&self, at: usize, from: u64, to: u64) -> bool {
        match self.shelf.get(at) {
            Some(word) => {
                let moved = word.compare_exchange(from, to, Ordering::SeqCst, Ordering::SeqCst);
                moved.is_ok()
            }
            None => false,
        }
    }

    /// A segment came to a worker; whether it had come to one before.
    pub fn has_come(&self, segment: u8) -> bool {
        match self.came.get(usize::from(segment)) {
            Some(count) => count.fetch_add(1, Ordering::SeqCst) > 0,
            None => false,
        }
    }
}
