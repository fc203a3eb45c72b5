//! Why a file can't be read, or the output not written.

use std::fmt;

/// Why a file can't be read.
#[derive(Clone, Copy, Debug, PartialEq, Eq, Drop)]
pub enum Why {
    Missing,
    /// It is a folder.
    Folder,
    /// The system doesn't let this user read it.
    Denied,
    /// It has more bytes than `LIMIT`.
    Long,
    /// Another cause, or none that is known.
    Other,
}

impl fmt::Display for Why {
    fn fmt<W: fmt::Write>(&self, f: &mut fmt::Formatter<W>) -> fmt::Result {
        f.write_str(match self {
            Why::Missing => "no such file",
            Why::Folder => "a folder",
            Why::Denied => "no permission to read it",
            Why::Long => "more than 16777216 bytes",
            Why::Other => "it can't be read",
        })
    }
}

/// Why the output took no more.
#[derive(Clone, Copy, Debug, PartialEq, Eq, Drop)]
pub enum Unwritten {
    /// There is no space left.
    Full,
    /// Nobody reads it any more.
    Closed,
    /// Another cause.
    Other,
}

impl fmt::Display for Unwritten {
    fn fmt<W: fmt::Write>(&self, f: &mut fmt::Formatter<W>) -> fmt::Result {
        f.write_str(match self {
            Unwritten::Full => "no space left",
            Unwritten::Closed => "nobody reads it any more",
            Unwritten::Other => "it can't be written",
        })
    }
}
