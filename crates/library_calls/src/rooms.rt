//! Bytes in the room that a caller gives.
ghost use Rattle.std.specs.Prelude.{◌≡◌, ◌≤◌, length};
ghost use Rattle.library_calls.specs.Rooms.{laid_over};

/// Writes bytes over the front of a room, and answers how many they are.
pub(crate) fn put_bytes(bytes: &[u8], room: &mut [u8]) -> usize
    requires { length bytes.now ≤ length room.old }
    ensures count { result ≡ length bytes.now }
    ensures room { room.new ≡ laid_over bytes.now room.old }
{
    let count = bytes.len();
    room[..count].copy_from_slice(bytes);
    count
}
