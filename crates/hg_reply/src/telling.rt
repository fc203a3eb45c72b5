//! Texts that a host is told, in room of its own.

ghost use Rattle.std.specs.Prelude.{◌≡◌, ◌≤◌, length};
ghost use Rattle.hg_reply.specs.Telling.{IsToldIn};

/// Writes a text, as far as there is room for it, and answers how many bytes of it were written.
pub fn tell(text: &[u8], room: &mut [u8]) -> usize
    ensures { IsToldIn text.now room.old result room.new }
{
    let count = text.len().min(room.len());
    room[..count].copy_from_slice(&text[..count]);
    count
}
