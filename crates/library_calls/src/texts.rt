//! Texts that are taken piece by piece.
ghost use Rattle.std.specs.Prelude.{◌≡◌, drop};
ghost use Rattle.library_calls.specs.Rooms.{TextTaken};

/// Takes of a text what stands behind so many bytes that were taken, as much of it as has room, and
/// answers how much.
pub(crate) fn take_text(text: &[u8], taken: &mut usize, room: &mut [u8]) -> usize
    ensures taken { TextTaken (drop taken.old text.now) room.old room.new result }
    ensures left { drop taken.new text.now ≡ drop result (drop taken.old text.now) }
{
    let from = (*taken).min(text.len());
    let left = &text[from..];
    let count = left.len().min(room.len());
    room[..count].copy_from_slice(&left[..count]);
    *taken = from + count;
    count
}
