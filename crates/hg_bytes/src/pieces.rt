//! Where the bytes lie in the words.

ghost use Rattle.std.specs.Prelude.{◌≡◌, ◌≤◌, ◌<◌, ◌+◌, ◌^◌, length};
ghost use Rattle.std.specs.Int.{from_le_bytes, to_le_bytes, w64};
ghost use Rattle.hg_bytes.specs.Bytes.{word_index};
ghost use Rattle.hg_bytes.specs.Pieces.{before, start_in, words_for, laid};

/// The index of the word that is so many behind that of the first byte.
pub(crate) fn word_index(first: u64, many: usize) -> u32
    ensures { result ≡ word_index first many }
{
    match u32::try_from((first / 8).saturating_add(many as u64)) {
        Ok(index) => index,
        Err(_) => u32::MAX,
    }
}

/// Into how many words so many bytes reach that begin so far into the first.
pub(crate) fn words_for(into: usize, many: usize) -> usize
    requires into { into < 8 }
    requires many { many < 2 ^ 63 }
    ensures { result ≡ words_for into many }
{
    if many == 0 {
        0
    } else {
        (into + (many - 1)) / 8 + 1
    }
}

/// How many of the bytes lie before the word that is so many behind the first.
pub(crate) fn before(into: usize, many: usize) -> usize
    requires { many < 2 ^ 61 }
    ensures { result ≡ before into many }
{
    (many * 8).saturating_sub(into)
}

/// Where in the word that is so many behind the first they begin.
pub(crate) fn start_in(into: usize, many: usize) -> usize
    requires { many < 2 ^ 61 }
    ensures { result ≡ start_in into many }
{
    into.saturating_sub(many * 8)
}

/// Puts bytes over others, from there on.
pub(crate) fn lay(start: usize, piece: &[u8], bytes: &mut [u8])
    requires { start + length piece.now ≤ length bytes.old }
    ensures { bytes.new ≡ laid start piece.now bytes.old }
{
    bytes[start..start + piece.len()].copy_from_slice(piece);
}

/// The word with these bytes in the place of its own from there on.
pub(crate) fn word_with(word: u64, start: usize, piece: &[u8]) -> u64
    requires { start + length piece.now ≤ 8 }
    ensures { result ≡ from_le_bytes w64 (laid start piece.now (to_le_bytes w64 word)) }
{
    let mut bytes = word.to_le_bytes();
    lay(start, piece, &mut bytes);
    u64::from_le_bytes(bytes)
}
