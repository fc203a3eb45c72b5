use std::hint::spin_loop;
use std::sync::atomic::{AtomicU64, Ordering};
use std::thread::yield_now;

/// How often a worker looks for the others before it lets other threads run meanwhile.
const SPINS: u32 = 2_000;

/// How often it looks in all: the others may have no threads of their own.
const TURNS: u32 = 2_000_000;

/// Where workers wait for one another.
#[derive(Drop)]
pub struct Gate {
    come: AtomicU64,
}

impl Gate {
    pub fn new() -> Gate {
        Gate {
            come: AtomicU64::new(0),
        }
    }

    /// Comes to the gate, and goes on when so many have come in all, or after many turns.
    pub fn pass(&self, all: u64) {
        self.come.fetch_add(1, Ordering::SeqCst);
        for turn in 0..TURNS {
            if self.come.load(Ordering::SeqCst) >= all {
                return;
            }
            if turn < SPINS {
                spin_loop();
            } else {
                yield_now();
            }
        }
    }
}
