//! What the layer above sees of a port.
ghost use Rattle.std.specs.Prelude.{◌≡◌, ◌↔◌, ◌<◌, ℕ, List, length, slice_get, option_copied, IsTrue};
ghost use Rattle.rio_packets.specs.Fields.{prio_of};
ghost use Rattle.link_buffers.specs.Queues.{list_at, appended, popped};
ghost use Rattle.link_port.specs.Faces.{AreLists};

use rio_packets::Packet;

/// A port as the layer above it sees it: eight lists of packets, of which four were received and
/// four are to be sent, one for each priority. A packet stays in its list to be sent until the far
/// port has accepted it.
pub trait PortFace {
    /// The packets that were received and are not taken yet, by priority.
    ghost received: { Self → List (List (List ℕ)) };

    /// The packets to be sent, by priority.
    ghost queued: { Self → List (List (List ℕ)) };

    /// What calls of the layer above leave as it is, as the number of buffers.
    ghost alike: { Self → Self → Type 0 };

    /// Returns the first received packet of a priority. `None` exactly where there is none.
    fn in_head(&self, prio: u8) -> Option<&Packet>
        requires { prio < 4 }
        ensures value { option_copied result ≡ slice_get (list_at (received self.now) prio) 0 }
        ensures lists { AreLists (received self.now) };

    /// Takes the first received packet of a priority, and frees its buffer. `None` exactly where
    /// there is none.
    fn in_pop(&mut self, prio: u8) -> Option<Packet>
        requires { prio < 4 }
        ensures value { result ≡ slice_get (list_at (received self.old) prio) 0 }
        ensures received { received self.new ≡ popped (received self.old) prio }
        ensures queued { queued self.new ≡ queued self.old }
        ensures alike { alike self.old self.new };

    /// Returns whether a packet of this priority may be put: fewer than 16 are to be sent (this
    /// project's profile).
    fn out_room(&self, prio: u8) -> bool
        requires { prio < 4 }
        ensures exact { IsTrue result ↔ (length (list_at (queued self.now) prio) < 16) }
        ensures lists { AreLists (queued self.now) };

    /// Appends a packet, whose priority has room, to the list to be sent.
    fn out_put(&mut self, packet: Packet)
        requires room { length (list_at (queued self.old) (prio_of packet)) < 16 }
        ensures queued { queued self.new ≡ appended (queued self.old) (prio_of packet) packet }
        ensures received { received self.new ≡ received self.old }
        ensures alike { alike self.old self.new };

    /// A port is alike to itself.
    ghost alike_same: { (port : Self) → alike port port };

    /// What is alike to one that is alike is alike.
    ghost alike_on: { (port next last : Self) → alike port next → alike next last
        → alike port last };
}
