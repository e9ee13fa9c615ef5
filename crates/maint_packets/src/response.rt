//! Maintenance responses.
ghost use Rattle.std.specs.Prelude.{◌≡◌, ◌+◌, ◌<◌, ◌≤◌, false, length, Some, if◌then◌else◌};
ghost use Rattle.rio_packets.specs.LinkForm.{LinkForm};
ghost use Rattle.rio_packets.specs.Fields.{ids_end};
ghost use Rattle.maint_packets.specs.Responses.{is_with_data, is_without_data, response_of, IsResponseForm, response_body, response_bytes};

use crate::layout::{
    Parts, built, is_large, long_length, low_half_of, maintenance_bytes, short_length, tid_of,
    ttype_of, word_at,
};
use rio_packets::Packet;

/// What was asked is done (RapidIO Interconnect Specification 1.3, Part 1, response status).
pub(crate) const DONE: u8 = 0;

/// What was asked could not be done.
pub(crate) const ERROR: u8 = 7;

/// The transaction type of a response to a request to read.
const READ: u8 = 2;

/// The transaction type of a response to a request to write.
const WRITE: u8 = 3;

/// A maintenance response.
#[derive(Clone, Copy, Debug, PartialEq, Eq)]
pub struct Response {
    /// The priority, 0 to 3, of which 3 is the highest.
    pub prio: u8,
    /// The destination ID.
    pub dest: u16,
    /// The source ID.
    pub source: u16,
    /// Whether the IDs have 16 bits each, and not 8.
    pub large: bool,
    /// Whether a request to write is answered.
    pub write: bool,
    /// 0 if what was asked is done, 7 if it could not be done.
    pub status: u8,
    /// The transaction number of the request.
    pub tid: u8,
    /// The hop count.
    pub hop: u8,
    /// The two words of a read that is done.
    pub words: Option<(u32, u32)>,
}

/// Reads the response that a packet carries. `None` comes exactly if it is not a maintenance packet
/// of one of these forms: a read with status 0 and two words of data, a read with status 7 and no
/// data, or a write with status 0 or 7 and no data (RapidIO Interconnect Specification 1.3, Part 1,
/// maintenance packets; the data of a response by this project's profile).
pub fn read_response(packet: &Packet) -> Option<Response>
    ensures { result ≡ response_of packet.now }
{
    let bytes = maintenance_bytes(packet)?;
    let words = if is_with_data(bytes) {
        Some((word_at(bytes, 6), word_at(bytes, 10)))
    } else if is_without_data(bytes) {
        None
    } else {
        return None;
    };
    Some(Response {
        prio: packet.prio(),
        dest: packet.dest()?,
        source: packet.source()?,
        large: is_large(bytes),
        write: ttype_of(bytes) == WRITE,
        status: low_half_of(bytes),
        tid: tid_of(bytes),
        hop: packet.hop()?,
        words,
    })
}

/// Whether it is a read that is done.
fn is_with_data(bytes: &[u8]) -> bool
    requires { ids_end bytes.now + 8 ≤ length bytes.now }
    ensures { result ≡ is_with_data bytes.now }
{
    ttype_of(bytes) == READ
        && low_half_of(bytes) == DONE
        && bytes.len() == long_length(is_large(bytes))
}

/// Whether it is a read that failed, or a write.
fn is_without_data(bytes: &[u8]) -> bool
    requires { ids_end bytes.now + 8 ≤ length bytes.now }
    ensures { result ≡ is_without_data bytes.now }
{
    let ttype = ttype_of(bytes);
    let status = low_half_of(bytes);
    bytes.len() == short_length(is_large(bytes))
        && ((ttype == READ && status == ERROR)
            || (ttype == WRITE && (status == DONE || status == ERROR)))
}

/// Returns the packet that carries a response of one of the forms that [`read_response`] reads.
pub fn write_response(response: &Response) -> Packet
    requires form { IsResponseForm response.now.write response.now.status response.now.words }
    requires prio { response.now.prio < 4 }
    requires dest { response.now.large ≡ false → response.now.dest < 256 }
    requires source { response.now.large ≡ false → response.now.source < 256 }
    ensures form { LinkForm (response_body response.now) result }
    ensures value { result ≡ response_bytes response.now }
    ensures read_back { response_of result ≡ Some response.now }
{
    let parts = Parts {
        ttype: type_of(response.write),
        low_half: response.status,
        tid: response.tid,
        hop: response.hop,
        offset: 0,
        words: response.words,
    };
    built(
        response.prio,
        response.large,
        response.dest,
        response.source,
        &parts,
    )
}

/// The transaction type of a response.
fn type_of(write: bool) -> u8
    ensures { result ≡ (if write then 3 else 2) }
{
    if write { WRITE } else { READ }
}
