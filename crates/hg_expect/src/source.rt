//! A trace by the name of its file.

/// A trace by the name of its file.
#[derive(Drop)]
pub struct Source<'a> {
    pub name: &'a str,
    pub bytes: Vec<u8>,
}
