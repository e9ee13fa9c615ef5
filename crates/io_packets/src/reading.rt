//! What a packet carries.
ghost use Rattle.std.specs.Prelude.{◌≡◌, ◌+◌, ◌<◌, ◌≤◌, length};
ghost use Rattle.rio_packets.specs.LinkForm.{Passes};
ghost use Rattle.rio_packets.specs.Words.{word_at, is_status};
ghost use Rattle.io_packets.specs.Layout.{addr_in, wdptr_in, extension_in, size_named, size_of, between};
ghost use Rattle.io_packets.specs.Forms.{is_size, is_stream_size, CanBeRead, IsSized};
ghost use Rattle.io_packets.specs.Reading.{read_of, has_data, write_of, write_with_response_of, any_write_of, has_pad, is_stream, streaming_write_of, is_plain_reply, is_reply_with_data, io_response_of, io_of};

use crate::classes::{
    DONE, ERROR, NREAD, NWRITE, NWRITE_R, READ_CLASS, RESPONSE_CLASS, STREAMING_WRITE_CLASS,
    WITH_DATA, WITHOUT_DATA, WRITE_CLASS,
};
use crate::io::{Io, Load};
use rio_packets::Packet;

/// Reads what a packet carries: a read, a write or a response of the forms that `docs/packets.md`
/// names, or a request of another size or length, which is `BadRead`, `BadWriteR` or `BadWrite`.
/// All else is `Other`, and so is each packet with IDs of another width than eight bits (RapidIO
/// Interconnect Specification 1.3, Part 1, request and response packet formats).
pub fn read_io(packet: &Packet) -> Io
    ensures value { result ≡ io_of packet.now }
    ensures good { CanBeRead result }
    ensures sized { IsSized result }
{
    if packet.tt() != 0 {
        return Io::Other;
    }
    let bytes = packet.bytes();
    match packet.ftype() {
        READ_CLASS => read_of(bytes),
        WRITE_CLASS => any_write_of(bytes),
        STREAMING_WRITE_CLASS => streaming_write_of(bytes),
        RESPONSE_CLASS => response_of(bytes),
        _ => Io::Other,
    }
}

/// What a packet of the class of reads asks for.
fn read_of(bytes: &[u8]) -> Io
    requires { 8 ≤ length bytes.now }
    ensures { result ≡ read_of bytes.now }
{
    if bytes[4] >> 4 != NREAD || bytes.len() != 12 {
        return Io::Other;
    }
    let tid = bytes[5];
    match size_of(bytes) {
        Some(size) => Io::NRead {
            tid,
            addr: addr_in(word_at(bytes, 6)),
            size,
        },
        None => Io::BadRead { tid },
    }
}

/// What a packet of the class of writes asks for.
fn any_write_of(bytes: &[u8]) -> Io
    requires { Passes bytes.now }
    ensures { result ≡ any_write_of bytes.now }
{
    if bytes.len() < 12 {
        return Io::Other;
    }
    match bytes[4] >> 4 {
        NWRITE => write_of(bytes),
        NWRITE_R => write_with_response_of(bytes),
        _ => Io::Other,
    }
}

/// What an NWRITE asks for.
fn write_of(bytes: &[u8]) -> Io
    requires { 12 ≤ length bytes.now }
    ensures { result ≡ write_of bytes.now }
{
    if has_data(bytes) {
        Io::NWrite {
            addr: addr_in(word_at(bytes, 6)),
            load: between(bytes, 10, 2),
        }
    } else {
        Io::BadWrite
    }
}

/// What an NWRITE_R asks for.
fn write_with_response_of(bytes: &[u8]) -> Io
    requires { 12 ≤ length bytes.now }
    ensures { result ≡ write_with_response_of bytes.now }
{
    let tid = bytes[5];
    if has_data(bytes) {
        Io::NWriteR {
            tid,
            addr: addr_in(word_at(bytes, 6)),
            load: between(bytes, 10, 2),
        }
    } else {
        Io::BadWriteR { tid }
    }
}

/// What a packet of the class of streaming writes asks for.
fn streaming_write_of(bytes: &[u8]) -> Io
    requires { 8 ≤ length bytes.now }
    ensures { result ≡ streaming_write_of bytes.now }
{
    if is_stream(bytes) {
        Io::SWrite {
            addr: addr_in(word_at(bytes, 4)),
            load: between(bytes, 8, 4),
        }
    } else {
        Io::BadWrite
    }
}

/// What a packet of the class of responses says.
fn response_of(bytes: &[u8]) -> Io
    requires { 8 ≤ length bytes.now }
    ensures { result ≡ io_response_of bytes.now }
{
    let tid = bytes[5];
    if is_plain_reply(bytes) {
        Io::Reply {
            status: bytes[4] & 15,
            tid,
            load: None,
        }
    } else if is_reply_with_data(bytes) {
        Io::Reply {
            status: DONE,
            tid,
            load: Some(between(bytes, 6, 2)),
        }
    } else {
        Io::Other
    }
}

/// Whether a write has just the data that its size says.
fn has_data(bytes: &[u8]) -> bool
    requires { 12 ≤ length bytes.now }
    ensures { result ≡ has_data bytes.now (size_of bytes.now) }
{
    match size_of(bytes) {
        Some(size) => bytes.len() == 12 + usize::from(size),
        None => false,
    }
}

/// Whether a streaming write is of the right form.
fn is_stream(bytes: &[u8]) -> bool
    requires { 8 ≤ length bytes.now }
    ensures { result ≡ is_stream bytes.now }
{
    is_stream_size(bytes.len().saturating_sub(12))
        && extension_in(word_at(bytes, 4)) == 0
        && has_pad(bytes)
}

/// Whether the last two bytes are a pad.
fn has_pad(bytes: &[u8]) -> bool
    requires { 8 ≤ length bytes.now }
    ensures { result ≡ has_pad bytes.now }
{
    bytes[bytes.len() - 2] == 0 && bytes[bytes.len() - 1] == 0
}

/// Whether it is a response without data.
fn is_plain_reply(bytes: &[u8]) -> bool
    requires { 8 ≤ length bytes.now }
    ensures { result ≡ is_plain_reply bytes.now }
{
    bytes[4] >> 4 == WITHOUT_DATA && is_status(bytes[4] & 15) && bytes.len() == 8
}

/// Whether it is a response with data.
fn is_reply_with_data(bytes: &[u8]) -> bool
    requires { 8 ≤ length bytes.now }
    ensures { result ≡ is_reply_with_data bytes.now }
{
    bytes[4] >> 4 == WITH_DATA && bytes[4] & 15 == DONE && is_size(bytes.len() - 8)
}

/// The size that a request names, if it is one of the profile and its address is not extended.
fn size_of(bytes: &[u8]) -> Option<u8>
    requires { 10 ≤ length bytes.now }
    ensures { result ≡ size_of bytes.now }
{
    let word = word_at(bytes, 6);
    if extension_in(word) != 0 {
        return None;
    }
    size_named(bytes[4] & 15, wdptr_in(word))
}

/// The size that a code and wdptr name.
fn size_named(code: u8, wdptr: u32) -> Option<u8>
    requires { wdptr < 2 }
    ensures { result ≡ size_named code wdptr }
{
    match (code, wdptr) {
        (11, 0) => Some(8),
        (11, _) => Some(16),
        (12, 0) => Some(32),
        (12, _) => Some(64),
        _ => None,
    }
}

/// The address in an address word.
fn addr_in(word: u32) -> u32
    ensures { result ≡ addr_in word }
{
    word / 8 * 8
}

/// The bit wdptr of an address word.
fn wdptr_in(word: u32) -> u32
    ensures value { result ≡ wdptr_in word }
    ensures range { result < 2 }
{
    word / 4 % 2
}

/// The bits of an address word that extend the address.
fn extension_in(word: u32) -> u32
    ensures { result ≡ extension_in word }
{
    word % 4
}

/// The address word in four bytes.
fn word_at(bytes: &[u8], at: usize) -> u32
    requires { at + 4 ≤ length bytes.now }
    ensures { result ≡ word_at bytes.now at }
{
    u32::from_be_bytes([bytes[at], bytes[at + 1], bytes[at + 2], bytes[at + 3]])
}

/// The bytes from a place on, without so many at the end.
fn between(bytes: &[u8], from: usize, behind: usize) -> Load
    requires order { from + behind ≤ length bytes.now }
    requires most { length bytes.now ≤ from + behind + 64 }
    ensures { result ≡ between bytes.now from behind }
{
    Load::of_bytes(&bytes[from..bytes.len() - behind])
}

/// Whether a read, a write or a response may have so many bytes.
pub fn is_size(n: usize) -> bool
    ensures { result ≡ is_size n }
{
    n == 8 || n == 16 || n == 32 || n == 64
}

/// Whether a streaming write may have so many bytes.
pub fn is_stream_size(n: usize) -> bool
    ensures { result ≡ is_stream_size n }
{
    n % 8 == 0 && 8 <= n && n <= 64
}

/// Whether a response may have this status.
fn is_status(status: u8) -> bool
    ensures { result ≡ is_status status }
{
    status == DONE || status == ERROR
}
