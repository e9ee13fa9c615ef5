//! What characters tell.
use link_model::Event;
use rio_packets::Cause;
use rio_symbols::Symbol;

/// The events that one character completes.
#[derive(Debug, Drop, PartialEq)]
pub struct Events {
    /// The first of them.
    pub first: Option<Event>,
    /// The start-of-packet or end-of-packet symbol that ended the packet named by the first.
    pub second: Option<Symbol>,
}

/// What a run of characters tells, in a few bytes: a packet that ended is not in it, but is lent by
/// [`Framer::ended`](crate::Framer::ended).
#[derive(Clone, Copy, Debug, PartialEq, Eq)]
pub enum Told {
    /// No event.
    Nothing,
    /// A control symbol, which ended no packet.
    Ctl(Symbol),
    /// The packet that was in progress, and the start-of-packet or end-of-packet symbol that ended
    /// it.
    Ends(Symbol),
    /// What is neither a symbol nor a packet, and why.
    Bad(Cause),
}
