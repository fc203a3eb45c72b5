//! Queues of pages: a list of pages for each arena and size class, each page in one at most.
#![tactic(auto)]

mod page_queues;

pub use page_queues::{ARENAS, PAGES, PageQueues};
