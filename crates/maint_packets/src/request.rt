//! Maintenance requests.
ghost use Rattle.std.specs.Prelude.{◌≡◌, ◌+◌, ◌<◌, ◌≤◌, false, length, Some, IfSome, if◌then◌else◌};
ghost use Rattle.rio_packets.specs.LinkForm.{LinkForm};
ghost use Rattle.rio_packets.specs.Fields.{ids_end, body_of};
ghost use Rattle.rio_packets.specs.Hops.{is_large};
ghost use Rattle.maint_packets.specs.Layout.{short_length, long_length, behind_ids};
ghost use Rattle.maint_packets.specs.Requests.{names_second, in_half, value_in, has_form, request_of, IsGoodOp, request_body, request_bytes};

use crate::layout::{
    Parts, built, is_large, long_length, low_half_of, maintenance_bytes, offset_of, short_length,
    tid_of, ttype_of, word_at,
};
use rio_packets::Packet;

/// The size of a request for four bytes (RapidIO Interconnect Specification 1.3, Part 1,
/// maintenance packets).
const FOUR_BYTES: u8 = 8;

/// The transaction type of a request to read.
const READ: u8 = 0;

/// The transaction type of a request to write.
const WRITE: u8 = 1;

/// What a request asks for.
#[derive(Clone, Copy, Debug, PartialEq, Eq)]
pub enum Op {
    /// Read four bytes.
    Read,
    /// Write four bytes.
    Write {
        /// What is written.
        value: u32,
    },
    /// A request to read that is not of the right form: its size is not that of four bytes, or it
    /// has data.
    BadRead,
    /// A request to write that is not of the right form: its size is not that of four bytes, or it
    /// has not two words of data.
    BadWrite,
}

/// A maintenance request.
#[derive(Clone, Copy, Debug, PartialEq, Eq)]
pub struct Request {
    /// The priority, 0 to 3, of which 3 is the highest.
    pub prio: u8,
    /// The destination ID.
    pub dest: u16,
    /// The source ID.
    pub source: u16,
    /// Whether the IDs have 16 bits each, and not 8.
    pub large: bool,
    /// What it asks for.
    pub op: Op,
    /// The transaction number, which the response has too.
    pub tid: u8,
    /// The hop count: how many switches it passes.
    pub hop: u8,
    /// The offset of the register in bytes, 24 bits. Its lowest two bits are reserved in the
    /// standard: an offset with one of them set names no register (this project's profile).
    pub offset: u32,
}

/// Reads the request that a packet carries. `None` comes exactly if it is not a maintenance packet,
/// or if its transaction type is neither 0 nor 1. A request that is not of the right form is
/// `BadRead` or `BadWrite` (RapidIO Interconnect Specification 1.3, Part 1, maintenance packets).
pub fn read_request(packet: &Packet) -> Option<Request>
    ensures value { result ≡ request_of packet.now }
    ensures dest { IfSome result (λ request. request.large ≡ false → request.dest < 256) }
    ensures source { IfSome result (λ request. request.large ≡ false → request.source < 256) }
{
    let bytes = maintenance_bytes(packet)?;
    let op = match ttype_of(bytes) {
        READ => read_op(bytes),
        WRITE => write_op(bytes),
        _ => return None,
    };
    Some(Request {
        prio: packet.prio(),
        dest: packet.dest()?,
        source: packet.source()?,
        large: is_large(bytes),
        op,
        tid: tid_of(bytes),
        hop: packet.hop()?,
        offset: offset_of(bytes),
    })
}

/// What a request to read asks for.
fn read_op(bytes: &[u8]) -> Op
    requires { ids_end bytes.now + 8 ≤ length bytes.now }
    ensures { result ≡ (if has_form bytes.now (short_length (is_large bytes.now))
        then Op.Read else Op.BadRead) }
{
    if has_form(bytes, short_length(is_large(bytes))) {
        Op::Read
    } else {
        Op::BadRead
    }
}

/// What a request to write asks for.
fn write_op(bytes: &[u8]) -> Op
    requires { ids_end bytes.now + 8 ≤ length bytes.now }
    ensures { result ≡ (if has_form bytes.now (long_length (is_large bytes.now))
        then Op.Write (value_in bytes.now) else Op.BadWrite) }
{
    if !has_form(bytes, long_length(is_large(bytes))) {
        return Op::BadWrite;
    }
    let place = if names_second(offset_of(bytes)) {
        10
    } else {
        6
    };
    Op::Write {
        value: word_at(bytes, place),
    }
}

/// Whether a request has the size of four bytes, and a link form of this length.
fn has_form(bytes: &[u8], long: usize) -> bool
    requires { ids_end bytes.now + 8 ≤ length bytes.now }
    ensures { result ≡ has_form bytes.now long }
{
    low_half_of(bytes) == FOUR_BYTES && bytes.len() == long
}

/// Whether an offset names the second word of its double-word.
fn names_second(offset: u32) -> bool
    ensures { result ≡ names_second offset }
{
    offset >> 2 & 1 == 1
}

/// Two words, of which the one that the offset names is the value, and the other 0.
pub(crate) fn in_half(offset: u32, value: u32) -> (u32, u32)
    ensures { result ≡ in_half offset value }
{
    if names_second(offset) {
        (0, value)
    } else {
        (value, 0)
    }
}

/// Returns the packet that carries a request to read or to write. The half of the data that the
/// offset does not name is 0.
pub fn write_request(request: &Request) -> Packet
    requires op { IsGoodOp request.now.op }
    requires prio { request.now.prio < 4 }
    requires dest { request.now.large ≡ false → request.now.dest < 256 }
    requires source { request.now.large ≡ false → request.now.source < 256 }
    requires offset { request.now.offset < 0x1000000 }
    ensures form { LinkForm (request_body request.now) result }
    ensures value { result ≡ request_bytes request.now }
    ensures read_back { request_of result ≡ Some request.now }
{
    match request.op {
        Op::Read => packet_of(request, READ, None),
        Op::Write { value } => packet_of(request, WRITE, Some(in_half(request.offset, value))),
        Op::BadRead | Op::BadWrite => unreachable!(),
    }
}

/// The packet of a request of a transaction type, with these data.
fn packet_of(request: &Request, ttype: u8, words: Option<(u32, u32)>) -> Packet
    requires prio { request.now.prio < 4 }
    requires ttype { ttype < 16 }
    requires dest { request.now.large ≡ false → request.now.dest < 256 }
    requires source { request.now.large ≡ false → request.now.source < 256 }
    requires offset { request.now.offset < 0x1000000 }
    ensures { LinkForm (body_of request.now.prio 8 request.now.large
        request.now.dest request.now.source
        (behind_ids ttype 8 request.now.tid request.now.hop request.now.offset words)) result }
{
    let parts = Parts {
        ttype,
        low_half: FOUR_BYTES,
        tid: request.tid,
        hop: request.hop,
        offset: request.offset,
        words,
    };
    built(
        request.prio,
        request.large,
        request.dest,
        request.source,
        &parts,
    )
}
