//! Reactions: what a port answers by its input half.

ghost use Rattle.std.specs.Prelude.{◌≡◌};
ghost use Rattle.trace_reactions.specs.Reactions.{kind_of, reaction_of};

use rio_symbols::Symbol;
use rio_symbols::stype0::{LINK_RESPONSE, PACKET_ACCEPTED, PACKET_NOT_ACCEPTED, PACKET_RETRY};

/// What a reaction says, by stype0 of its symbol.
#[derive(Clone, Copy, Debug, PartialEq, Eq)]
pub enum ReactionKind {
    /// packet-accepted
    Accepted,
    /// packet-retry
    Retry,
    /// packet-not-accepted
    NotAccepted,
    /// link-response
    Response,
}

/// A reaction: what it says, and its ackID. The other parameter of its symbol is not kept.
#[derive(Clone, Copy, Debug, PartialEq, Eq)]
pub struct Reaction {
    pub kind: ReactionKind,
    pub ack: u8,
}

/// The reaction that a symbol is, if it is one.
pub(crate) fn reaction_of(symbol: &Symbol) -> Option<Reaction>
    ensures { result ≡ reaction_of symbol.now }
{
    let kind = kind_of(symbol.s0)?;
    Some(Reaction {
        kind,
        ack: symbol.p0,
    })
}

/// What a symbol with this stype0 answers, if it is an answer of the input half.
fn kind_of(s0: u8) -> Option<ReactionKind>
    ensures { result ≡ kind_of s0 }
{
    match s0 {
        PACKET_ACCEPTED => Some(ReactionKind::Accepted),
        PACKET_RETRY => Some(ReactionKind::Retry),
        PACKET_NOT_ACCEPTED => Some(ReactionKind::NotAccepted),
        LINK_RESPONSE => Some(ReactionKind::Response),
        _ => None,
    }
}
