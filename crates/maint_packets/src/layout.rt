//! The layout of maintenance packets.
ghost use Rattle.std.specs.Prelude.{◌≡◌, ◌+◌, ◌<◌, ◌≤◌, ◌++◌, false, length, slice_index, Some, None, IfSome, option_copied, if◌then◌else◌};
ghost use Rattle.arrayvec.specs.ArrayVec.{array_vec_len};
ghost use Rattle.rio_packets.specs.Fields.{is_maintenance, ids_end, ttype_of, body_of};
ghost use Rattle.rio_packets.specs.Hops.{is_large};
ghost use Rattle.rio_packets.specs.LinkForm.{AreBytes, LinkForm};
ghost use Rattle.rio_packets.specs.Words.{word_at};
ghost use Rattle.maint_packets.specs.Layout.{offset_of, tid_of, low_half_of, short_length, long_length, behind_ids};

use arrayvec::ArrayVec;
use rio_packets::{Header, Packet, build};

/// The format type of maintenance packets (RapidIO Interconnect Specification 1.3, Part 1, packet
/// formats).
const MAINTENANCE: u8 = 8;

/// How many bytes stand behind the IDs at most.
const MOST: usize = 14;

/// What stands behind the IDs of a maintenance packet.
#[derive(Clone, Copy)]
pub(crate) struct Parts {
    /// The transaction type.
    pub ttype: u8,
    /// The size of a request or the status of a response.
    pub low_half: u8,
    /// The transaction number.
    pub tid: u8,
    /// The hop count.
    pub hop: u8,
    /// The offset of a request, or 0.
    pub offset: u32,
    /// The data.
    pub words: Option<(u32, u32)>,
}

/// The bytes of a maintenance packet, of which at least eight stand behind the IDs.
pub(crate) fn maintenance_bytes(packet: &Packet) -> Option<&[u8]>
    ensures value { option_copied result
        ≡ (if is_maintenance packet.now then Some packet.now else None) }
    ensures least { IfSome result (λ bytes. ids_end bytes.now + 8 ≤ length bytes.now) }
    ensures range { IfSome result (λ bytes. AreBytes bytes.now) }
{
    packet.hop()?;
    Some(packet.bytes())
}

/// Whether the IDs have 16 bits each.
pub(crate) fn is_large(bytes: &[u8]) -> bool
    requires { 2 ≤ length bytes.now }
    ensures { result ≡ is_large bytes.now }
{
    bytes[1] >> 4 & 3 == 1
}

/// Where the IDs end.
fn ids_end(bytes: &[u8]) -> usize
    requires { 2 ≤ length bytes.now }
    ensures { result ≡ ids_end bytes.now }
{
    if is_large(bytes) { 6 } else { 4 }
}

/// The byte at a place behind the IDs.
fn behind(bytes: &[u8], place: usize) -> u8
    requires least { ids_end bytes.now + 8 ≤ length bytes.now }
    requires place { place < 8 }
    ensures { result ≡ slice_index bytes.now (ids_end bytes.now + place) }
{
    bytes[ids_end(bytes) + place]
}

/// The transaction type.
pub(crate) fn ttype_of(bytes: &[u8]) -> u8
    requires { ids_end bytes.now + 8 ≤ length bytes.now }
    ensures { result ≡ ttype_of bytes.now }
{
    behind(bytes, 0) >> 4
}

/// The size of a request or the status of a response.
pub(crate) fn low_half_of(bytes: &[u8]) -> u8
    requires { ids_end bytes.now + 8 ≤ length bytes.now }
    ensures { result ≡ low_half_of bytes.now }
{
    behind(bytes, 0) & 15
}

/// The transaction number.
pub(crate) fn tid_of(bytes: &[u8]) -> u8
    requires { ids_end bytes.now + 8 ≤ length bytes.now }
    ensures { result ≡ tid_of bytes.now }
{
    behind(bytes, 1)
}

/// The length of the link form of a request or response without data.
pub(crate) fn short_length(large: bool) -> usize
    ensures { result ≡ short_length large }
{
    if large { 16 } else { 12 }
}

/// The length of the link form of a request or response with two words of data.
pub(crate) fn long_length(large: bool) -> usize
    ensures { result ≡ long_length large }
{
    if large { 24 } else { 20 }
}

/// The word in the four bytes from a place behind the IDs on.
pub(crate) fn word_at(bytes: &[u8], place: usize) -> u32
    requires { ids_end bytes.now + place + 4 ≤ length bytes.now }
    ensures { result ≡ word_at bytes.now (ids_end bytes.now + place) }
{
    let at = ids_end(bytes) + place;
    u32::from_be_bytes([bytes[at], bytes[at + 1], bytes[at + 2], bytes[at + 3]])
}

/// The offset in the three bytes behind the hop count.
pub(crate) fn offset_of(bytes: &[u8]) -> u32
    requires { ids_end bytes.now + 8 ≤ length bytes.now }
    ensures { result ≡ offset_of bytes.now }
{
    u32::from_be_bytes([0, behind(bytes, 3), behind(bytes, 4), behind(bytes, 5)])
}

/// Returns the packet of these parts.
pub(crate) fn built(prio: u8, large: bool, dest: u16, source: u16, parts: &Parts) -> Packet
    requires prio { prio < 4 }
    requires dest { large ≡ false → dest < 256 }
    requires source { large ≡ false → source < 256 }
    requires ttype { parts.now.ttype < 16 }
    requires low_half { parts.now.low_half < 16 }
    requires offset { parts.now.offset < 0x1000000 }
    ensures { LinkForm (body_of prio 8 large dest source (behind_ids
        parts.now.ttype parts.now.low_half parts.now.tid parts.now.hop
        parts.now.offset parts.now.words)) result }
{
    let header = Header {
        prio,
        ftype: MAINTENANCE,
        dest,
        source,
        large,
    };
    let rest = parts.bytes();
    match build(&header, rest.as_slice()) {
        Ok(packet) => packet,
        Err(_) => unreachable!(),
    }
}

impl Parts {
    /// The bytes behind the IDs.
    fn bytes(&self) -> ArrayVec<u8, MOST>
        requires ttype { self.now.ttype < 16 }
        requires low_half { self.now.low_half < 16 }
        requires offset { self.now.offset < 0x1000000 }
        ensures value { result.items ≡ behind_ids
            self.now.ttype self.now.low_half self.now.tid self.now.hop
            self.now.offset self.now.words }
    {
        let [_, high, middle, low] = self.offset.to_be_bytes();
        let mut bytes = ArrayVec::new();
        append(
            &mut bytes,
            &[
                16 * self.ttype + self.low_half,
                self.tid,
                self.hop,
                high,
                middle,
                low,
            ],
        );
        if let Some((first, second)) = self.words {
            append(&mut bytes, &first.to_be_bytes());
            append(&mut bytes, &second.to_be_bytes());
        }
        bytes
    }
}

/// Appends bytes for which there is room.
fn append(bytes: &mut ArrayVec<u8, MOST>, more: &[u8])
    requires { array_vec_len bytes.old + length more.now ≤ 14 }
    ensures { bytes.new.items ≡ bytes.old.items ++ more.now }
{
    if bytes.try_extend_from_slice(more).is_err() {
        unreachable!();
    }
}
