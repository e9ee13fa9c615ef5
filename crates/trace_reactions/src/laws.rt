//! What holds of reactions, whoever sends them: each law is the contract of a function with an
//! empty body.

ghost use Rattle.std.specs.Prelude.{◌≡◌, ℕ};
ghost use Rattle.link_buffers.specs.Queues.{Buffered, packet_count, room_for};
ghost use Rattle.trace_reactions.specs.InputHalves.{has_room_behind};

/// A packet has room exactly if it would have in a store of a port that holds as many.
pub fn room_is_that_of_a_store()
    ensures { (store : Buffered) (prio : ℕ)
        → has_room_behind (packet_count store.lists) store.buffers prio ≡ room_for store prio }
{}
