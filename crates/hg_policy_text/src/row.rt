//! Rows of a document.

use crate::key::Key;

/// A row of a document: an entry of one of its tables `tenant`, `group`, `arena`, `grant` and
/// `deny`.
#[derive(Clone, Copy, Debug, PartialEq, Eq)]
pub struct Row {
    /// The table's key.
    pub table: Key,
    /// The row's number in its table, from 0 and below `rows`.
    pub number: usize,
    /// How many rows the table has.
    pub rows: usize,
}
