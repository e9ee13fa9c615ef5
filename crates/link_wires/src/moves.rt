//! `Move`: what a port does with packets.
use rio_packets::Packet;

/// What a port did with a packet.
#[derive(Debug, Drop)]
pub enum Move {
    /// It holds it, which it received.
    Held(Packet),
    /// It gave it up, which the far port holds.
    Freed(Packet),
}
