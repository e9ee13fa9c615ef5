//! The states of the two halves of a port, as its wires tell them.

use crate::heard::Heard;
use rio_symbols::stype0::{LINK_RESPONSE, PACKET_ACCEPTED, PACKET_NOT_ACCEPTED, PACKET_RETRY};
use rio_symbols::stype1::{LINK_REQUEST, RESTART_FROM_RETRY};
use rio_symbols::{Symbol, cmd};

/// The state of a half of a port.
#[derive(Clone, Copy, PartialEq)]
pub enum HalfState {
    Ok,
    RetryStopped,
    ErrorStopped,
}

impl HalfState {
    /// The state in words.
    pub fn words(self) -> &'static [u8] {
        match self {
            HalfState::Ok => b"OK",
            HalfState::RetryStopped => b"retry-stopped",
            HalfState::ErrorStopped => b"error-stopped",
        }
    }
}

/// What the two halves of a port are in, by what the port sends and takes: the output half, which
/// sends packets, and the input half, which takes them; and how many packets are outstanding.
#[derive(Clone, Copy, PartialEq)]
pub struct Halves {
    pub output: HalfState,
    pub input: HalfState,
    /// How many packets were sent and are not accepted.
    pub outstanding: u8,
    /// The ackID of the oldest of them, or of the next.
    oldest: u8,
    /// Whether it asked which packet is expected, and has no answer yet.
    asks: bool,
}

impl Default for Halves {
    fn default() -> Self {
        Halves {
            output: HalfState::Ok,
            input: HalfState::Ok,
            outstanding: 0,
            oldest: 0,
            asks: false,
        }
    }
}

/// How far an ackID is from another one on, of 32.
fn ahead(ack: u8, oldest: u8) -> u8 {
    (ack % 32 + 32 - oldest % 32) % 32
}

impl Halves {
    /// The port sends this.
    pub fn send(&mut self, heard: &Heard) {
        match heard {
            Heard::Packet(ack, _, symbol) => {
                let behind = ahead(*ack, self.oldest).saturating_add(1);
                self.outstanding = self.outstanding.max(behind);
                self.send_symbol(symbol);
            }
            Heard::Symbol(symbol) | Heard::Broken(_, symbol) => self.send_symbol(symbol),
            Heard::Nothing | Heard::Bad(_) => {}
        }
    }

    /// The port sends a symbol.
    fn send_symbol(&mut self, symbol: &Symbol) {
        match symbol.s1 {
            RESTART_FROM_RETRY => {
                self.output = HalfState::Ok;
                self.outstanding = 0;
            }
            LINK_REQUEST if symbol.cmd == cmd::INPUT_STATUS => {
                self.output = HalfState::ErrorStopped;
                self.asks = true;
            }
            _ => {}
        }
        match symbol.s0 {
            PACKET_RETRY => self.input = HalfState::RetryStopped,
            PACKET_NOT_ACCEPTED => self.input = HalfState::ErrorStopped,
            // The link-request may have come before the refusal was sent.
            LINK_RESPONSE => self.input = HalfState::Ok,
            _ => {}
        }
    }

    /// The port takes this.
    pub fn take(&mut self, heard: &Heard) {
        match heard {
            Heard::Packet(_, _, symbol) | Heard::Symbol(symbol) | Heard::Broken(_, symbol) => {
                self.take_symbol(symbol);
            }
            Heard::Nothing | Heard::Bad(_) => {}
        }
    }

    /// The port takes a symbol.
    fn take_symbol(&mut self, symbol: &Symbol) {
        match symbol.s1 {
            RESTART_FROM_RETRY if self.input == HalfState::RetryStopped => {
                self.input = HalfState::Ok;
            }
            LINK_REQUEST if symbol.cmd == cmd::INPUT_STATUS => self.input = HalfState::Ok,
            _ => {}
        }
        match symbol.s0 {
            PACKET_ACCEPTED => self.accept(symbol.p0),
            PACKET_RETRY => self.retry(symbol.p0),
            PACKET_NOT_ACCEPTED => self.fail(),
            LINK_RESPONSE => self.recover(symbol.p0),
            _ => {}
        }
    }

    /// Whether this is the ackID of the oldest packet that is outstanding.
    fn is_oldest(&self, ack: u8) -> bool {
        self.output == HalfState::Ok && self.outstanding > 0 && ahead(ack, self.oldest) == 0
    }

    /// A packet is accepted.
    fn accept(&mut self, ack: u8) {
        if self.is_oldest(ack) {
            self.oldest = (self.oldest % 32 + 1) % 32;
            self.outstanding = self.outstanding.saturating_sub(1);
        } else {
            self.fail();
        }
    }

    /// A packet is to be sent again.
    fn retry(&mut self, ack: u8) {
        if self.is_oldest(ack) {
            self.output = HalfState::RetryStopped;
        } else {
            self.fail();
        }
    }

    /// Something is wrong. What comes until the port knows which packet is expected changes
    /// nothing.
    fn fail(&mut self) {
        if self.output != HalfState::ErrorStopped {
            self.output = HalfState::ErrorStopped;
            self.asks = false;
        }
    }

    /// The port learns which packet is expected.
    fn recover(&mut self, ack: u8) {
        if self.asks {
            self.asks = false;
            self.output = HalfState::Ok;
            self.oldest = ack % 32;
            self.outstanding = 0;
        }
    }

    /// The time-out of the port fires.
    pub fn fire(&mut self) {
        if self.output == HalfState::Ok {
            self.fail();
        }
    }
}
