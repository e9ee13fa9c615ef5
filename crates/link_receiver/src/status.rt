//! What a port tells of its receive buffers.
ghost use Rattle.std.specs.Prelude.{◌≡◌, ◌<◌};
ghost use Rattle.link_receiver.specs.Status.{buffer_status};

use link_buffers::InStore;
use link_model::UNTOLD;

/// Returns the buffer status of a port: the number of its free buffers, 0 to 30, if it `tells` it,
/// else 31.
pub fn buffer_status(tells: bool, store: &InStore) -> u8
    ensures value { result ≡ buffer_status tells store.now }
    ensures range { result < 32 }
{
    if tells { store.free() } else { UNTOLD }
}
