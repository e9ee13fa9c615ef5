//! What a character did in a port.
use link_model::Event;
use rio_packets::Packet;
use rio_symbols::Symbol;

/// What a character did in a port.
#[derive(Debug, Drop)]
pub struct Taken {
    /// What the character completes: a symbol, a packet, or what is neither.
    pub first: Option<Event>,
    /// Whether the first is a symbol, or a packet that met an input which takes packets with the
    /// expected ackID.
    pub first_acted: bool,
    /// The start-of-packet or end-of-packet symbol that ended the packet named by the first.
    pub second: Option<Symbol>,
    /// A copy of the packet that was accepted.
    pub held: Option<Packet>,
    /// The symbol to send.
    pub reply: Option<Symbol>,
}
