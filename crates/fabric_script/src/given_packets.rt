//! Packets that lines give to endpoints.

ghost use Rattle.std.specs.Prelude.{◌≡◌, ◌<◌, true, false, IfSome, MatchOption};
ghost use Rattle.fabric_script.specs.GivenPackets.{gives_packet, gives_large_packet, given_line, line_giving};

use crate::hex::Hex;
use crate::lines::Line;

/// What a request to read or write a register says of it.
#[derive(Clone, Copy, Debug, PartialEq, Eq)]
pub struct RequestHead {
    /// The hop count.
    pub hop: u8,
    /// The transaction number.
    pub tid: u8,
    /// The offset of the register, of 24 bits.
    pub offset: u32,
}

/// What a packet has behind its IDs.
#[derive(Clone, Copy, Debug)]
pub enum Contents<'a> {
    /// A format type, 0 to 15, and data.
    Data(u8, &'a Hex),
    /// A maintenance read.
    Read(RequestHead),
    /// A maintenance write of a value.
    Write(RequestHead, u32),
}

/// A packet that a line gives to an endpoint: all but its source ID, which is the endpoint's.
#[derive(Clone, Copy, Debug)]
pub struct GivenPacket<'a> {
    /// The endpoint.
    pub node: u8,
    /// The priority, 0 to 3.
    pub prio: u8,
    /// Whether the IDs have 16 bits each, and not 8.
    pub large: bool,
    /// The destination ID.
    pub dest: u16,
    /// What stands behind the IDs.
    pub contents: Contents<'a>,
}

impl Line {
    /// The packet that the line gives to an endpoint, if it gives one.
    pub(crate) fn gives(&self) -> Option<GivenPacket<'_>>
        ensures packet { MatchOption result
            (gives_packet self.now ≡ false)
            (λ given. self.now ≡ line_giving given) }
        ensures dest { IfSome result (λ given. given.large ≡ false → given.dest < 256) }
    {
        match self {
            Line::Send {
                node,
                prio,
                ftype,
                dest,
                hex,
            } => Some(small(*node, *prio, *dest, Contents::Data(*ftype, hex))),
            Line::Read {
                node,
                prio,
                dest,
                hop,
                tid,
                offset,
            } => {
                let head = request_head(*hop, *tid, *offset);
                Some(small(*node, *prio, *dest, Contents::Read(head)))
            }
            Line::Write {
                node,
                prio,
                dest,
                hop,
                tid,
                offset,
                value,
            } => {
                let head = request_head(*hop, *tid, *offset);
                Some(small(*node, *prio, *dest, Contents::Write(head, *value)))
            }
            _ => self.gives_large(),
        }
    }

    /// The packet with 16-bit IDs that the line gives to an endpoint, if it gives one.
    fn gives_large(&self) -> Option<GivenPacket<'_>>
        ensures packet { MatchOption result
            (gives_large_packet self.now ≡ false)
            (λ given. (self.now ≡ line_giving given) × (given.large ≡ true)) }
    {
        match self {
            Line::Send16 {
                node,
                prio,
                ftype,
                dest,
                hex,
            } => Some(large(*node, *prio, *dest, Contents::Data(*ftype, hex))),
            Line::Read16 {
                node,
                prio,
                dest,
                hop,
                tid,
                offset,
            } => {
                let head = request_head(*hop, *tid, *offset);
                Some(large(*node, *prio, *dest, Contents::Read(head)))
            }
            Line::Write16 {
                node,
                prio,
                dest,
                hop,
                tid,
                offset,
                value,
            } => {
                let head = request_head(*hop, *tid, *offset);
                Some(large(*node, *prio, *dest, Contents::Write(head, *value)))
            }
            _ => None,
        }
    }
}

/// What a request says of this register.
fn request_head(hop: u8, tid: u8, offset: u32) -> RequestHead
    ensures { result ≡ record { hop = hop; tid = tid; offset = offset } }
{
    RequestHead { hop, tid, offset }
}

/// A packet with 8-bit IDs.
fn small<'a>(node: u8, prio: u8, dest: u8, contents: Contents<'a>) -> GivenPacket<'a>
    ensures line { line_giving result ≡ given_line node prio false dest contents.entry }
    ensures dest { result.dest < 256 }
{
    GivenPacket {
        node,
        prio,
        large: false,
        dest: u16::from(dest),
        contents,
    }
}

/// A packet with 16-bit IDs.
fn large<'a>(node: u8, prio: u8, dest: u16, contents: Contents<'a>) -> GivenPacket<'a>
    ensures line { line_giving result ≡ given_line node prio true dest contents.entry }
    ensures large { result.large ≡ true }
{
    GivenPacket {
        node,
        prio,
        large: true,
        dest,
        contents,
    }
}
