//! `Note`: what happened at an end of a link.
ghost use Rattle.std.specs.Prelude.{◌≡◌, IfOk};

use crate::side::Side;
use rio_chars::{Char, Chars};
use rio_packets::Packet;
use std::alloc::{AllocError, Global};

/// What happened at an end of a link.
#[derive(Drop)]
pub enum Note {
    /// The port put these characters on its wire.
    Sent(Side, Chars),
    /// The port took these characters from the other end's wire.
    Got(Side, Chars),
    /// The port holds this packet, which it received.
    Hold(Side, Packet),
    /// The port gave up this packet, which the other end holds.
    Free(Side, Packet),
    /// The port's time-out fired.
    Fire(Side),
}

impl Note {
    /// The same note once more. It takes memory for the characters.
    pub fn copy(&self, alloc: Global) -> Result<Note, AllocError>
        ensures same { IfOk result (λ note. note ≡ self.now) }
    {
        match self {
            Note::Sent(side, chars) => Ok(Note::Sent(*side, copied(alloc, chars.as_slice())?)),
            Note::Got(side, chars) => Ok(Note::Got(*side, copied(alloc, chars.as_slice())?)),
            Note::Hold(side, packet) => Ok(Note::Hold(*side, packet.copy())),
            Note::Free(side, packet) => Ok(Note::Free(*side, packet.copy())),
            Note::Fire(side) => Ok(Note::Fire(*side)),
        }
    }
}

/// A list of the same characters.
pub(crate) fn copied(alloc: Global, chars: &[Char]) -> Result<Chars, AllocError>
    ensures same { IfOk result (λ copy. copy ≡ chars.now) }
{
    let mut items = Vec::new(alloc);
    items.extend_from_slice(chars)?;
    Ok(Chars::new(items))
}
