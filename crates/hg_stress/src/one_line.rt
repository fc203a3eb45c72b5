use std::alloc::{AllocError, Global};

/// The first paragraph of a text as one line.
#[derive(Clone, Copy)]
pub struct OneLine<'a>(pub &'a str);

impl OneLine<'_> {
    /// Its words, one space between each two.
    pub fn text(self, alloc: Global) -> Result<String, AllocError> {
        let mut line = String::new(alloc);
        for part in self.0.split('\n') {
            if part.is_empty() {
                break;
            }
            for word in part.split_whitespace() {
                if !line.is_empty() {
                    line.push(' ')?;
                }
                line.push_str(word)?;
            }
        }
        Ok(line)
    }
}
