//! Control symbols in words.
ghost use Rattle.std.specs.Prelude.{◌≡◌, ◌≢◌, ◌<◌, MatchOption};
ghost use Rattle.conform_lines.specs.declared.symbols.SymbolName.{SymbolName as AName};
ghost use Rattle.conform_lines.specs.Names.{symbol_word, symbol_fields};

use rio_symbols::Symbol;
use rio_symbols::cmd::{INPUT_STATUS, RESET_DEVICE};
use rio_symbols::stype0::{
    LINK_RESPONSE, PACKET_ACCEPTED, PACKET_NOT_ACCEPTED, PACKET_RETRY, STATUS,
};
use rio_symbols::stype1::{
    END_OF_PACKET, LINK_REQUEST, MULTICAST_EVENT, NOP, RESTART_FROM_RETRY, START_OF_PACKET, STOMP,
};

/// A control symbol, but for its parameters.
#[derive(Clone, Copy, Debug, PartialEq, Eq)]
pub(crate) enum SymbolName {
    Accepted,
    Retry,
    NotAccepted,
    Status,
    Response,
    Start,
    Stomp,
    End,
    Restart,
    Request,
    Reset,
    Multicast,
}

/// The control symbol that this word names.
pub(crate) fn symbol_named(word: &[u8]) -> Option<SymbolName>
    ensures { MatchOption result
        ((name : AName) → symbol_word name ≢ word.now)
        (λ name. symbol_word name ≡ word.now) }
{
    match word {
        b"accepted" => Some(SymbolName::Accepted),
        b"retry" => Some(SymbolName::Retry),
        b"not-accepted" => Some(SymbolName::NotAccepted),
        b"status" => Some(SymbolName::Status),
        b"response" => Some(SymbolName::Response),
        b"start" => Some(SymbolName::Start),
        b"stomp" => Some(SymbolName::Stomp),
        b"end" => Some(SymbolName::End),
        b"restart" => Some(SymbolName::Restart),
        b"request" => Some(SymbolName::Request),
        b"reset" => Some(SymbolName::Reset),
        b"multicast" => Some(SymbolName::Multicast),
        _ => None,
    }
}

/// The control symbol of a name, with its two parameters.
pub(crate) fn symbol_of(name: SymbolName, p0: u8, p1: u8) -> Symbol
    requires first { p0 < 32 }
    requires second { p1 < 32 }
    ensures { result ≡ symbol_fields name p0 p1 }
{
    match name {
        SymbolName::Accepted => telling(PACKET_ACCEPTED, p0, p1),
        SymbolName::Retry => telling(PACKET_RETRY, p0, p1),
        SymbolName::NotAccepted => telling(PACKET_NOT_ACCEPTED, p0, p1),
        SymbolName::Status => telling(STATUS, p0, p1),
        SymbolName::Response => telling(LINK_RESPONSE, p0, p1),
        SymbolName::Start => asking(p0, p1, START_OF_PACKET, 0),
        SymbolName::Stomp => asking(p0, p1, STOMP, 0),
        SymbolName::End => asking(p0, p1, END_OF_PACKET, 0),
        SymbolName::Restart => asking(p0, p1, RESTART_FROM_RETRY, 0),
        SymbolName::Request => asking(p0, p1, LINK_REQUEST, INPUT_STATUS),
        SymbolName::Reset => asking(p0, p1, LINK_REQUEST, RESET_DEVICE),
        SymbolName::Multicast => asking(p0, p1, MULTICAST_EVENT, 0),
    }
}

/// A symbol that tells the sender of packets something, and the receiver nothing.
fn telling(s0: u8, p0: u8, p1: u8) -> Symbol
    requires kind { s0 < 8 }
    requires first { p0 < 32 }
    requires second { p1 < 32 }
    ensures { result ≡ record { s0 = s0; p0 = p0; p1 = p1; s1 = 7; cmd = 0 } }
{
    Symbol {
        s0,
        p0,
        p1,
        s1: NOP,
        cmd: 0,
    }
}

/// A symbol that tells the receiver of packets something, and the sender a status.
fn asking(p0: u8, p1: u8, s1: u8, cmd: u8) -> Symbol
    requires first { p0 < 32 }
    requires second { p1 < 32 }
    requires kind { s1 < 8 }
    requires request { cmd < 8 }
    ensures { result ≡ record { s0 = 4; p0 = p0; p1 = p1; s1 = s1; cmd = cmd } }
{
    Symbol {
        s0: STATUS,
        p0,
        p1,
        s1,
        cmd,
    }
}
