//! `Wire`: one way of a link.
ghost use Rattle.std.specs.Prelude.{◌≡◌, length};
ghost use Rattle.link_wires.specs.Wires.{empty_wire, silenced};

use crate::chars::Chars;
use crate::kept::Kept;
use rio_chars::Char;
use std::alloc::Global;
use std::marker::Model;

/// One way of a link: the characters on it, and the events that were sent on it and that no acted
/// event has met.
#[derive(Drop)]
pub struct Wire {
    pub(crate) chars: Chars,
    pub(crate) kept: Kept,
}

impl Model for Wire {
    ghost use Rattle.link_wires.specs.Wires.{WireState};

    ghost Value = { WireState };

    ghost view = { λ wire. record { chars = wire.chars; kept = wire.kept } };
}

impl Wire {
    /// A wire with nothing on it. It takes no memory yet.
    pub fn new(alloc: Global) -> Wire
        ensures { result ≡ empty_wire }
    {
        Wire {
            chars: Chars::new(alloc),
            kept: Kept::new(alloc),
        }
    }

    /// The number of characters on the wire.
    pub fn length(&self) -> usize
        ensures { result ≡ length self.now.chars }
    {
        self.chars.len()
    }

    /// Forgets what was sent, as after a time in which nothing arrives any more.
    pub fn silence(&mut self)
        ensures { self.new ≡ silenced self.old }
    {
        self.kept.clear();
    }
}
