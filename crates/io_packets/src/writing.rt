//! The packets of reads, writes and responses.
ghost use Rattle.std.specs.Prelude.{◌≡◌, ◌+◌, ◌%◌, ◌<◌, ◌≤◌, ◌++◌, length, IsTrue};
ghost use Rattle.arrayvec.specs.ArrayVec.{array_vec_len};
ghost use Rattle.rio_packets.specs.LinkForm.{LinkForm};
ghost use Rattle.io_packets.specs.Forms.{is_size, IsAligned, IsGood};
ghost use Rattle.io_packets.specs.Reading.{io_of};
ghost use Rattle.io_packets.specs.Writing.{code_of, wdptr_of, type_of, io_request_head, io_behind_ids, io_body, io_bytes};

use crate::classes::{
    NREAD, NWRITE, NWRITE_R, READ_CLASS, RESPONSE_CLASS, STREAMING_WRITE_CLASS, WITH_DATA,
    WITHOUT_DATA, WRITE_CLASS,
};
use crate::io::{Io, Load, MAX_LOAD};
use arrayvec::ArrayVec;
use rio_packets::{Header, Packet, build};

/// How many bytes stand behind the IDs at most.
pub const MAX_BEHIND_IDS: usize = 6 + MAX_LOAD;

/// Returns the packet that carries a read, a write or a response of the forms that
/// [`read_io`](crate::read_io) reads. An NWRITE is written with the transaction number 0.
pub fn write_io(prio: u8, dest: u8, source: u8, io: &Io) -> Packet
    requires prio { prio < 4 }
    requires good { IsGood io.now }
    ensures form { LinkForm (io_body prio dest source io.now) result }
    ensures value { result ≡ io_bytes prio dest source io.now }
    ensures read_back { io_of result ≡ io.now }
{
    let header = Header {
        prio,
        ftype: io.ftype(),
        dest: u16::from(dest),
        source: u16::from(source),
        large: false,
    };
    let rest = io.behind_ids();
    match build(&header, rest.as_slice()) {
        Ok(packet) => packet,
        Err(_) => unreachable!(),
    }
}

impl Io {
    /// The format type of the packet that carries it (RapidIO Interconnect Specification 1.3, Part
    /// 1, packet formats).
    pub fn ftype(&self) -> u8
        requires { IsGood self.now }
        ensures value { result ≡ type_of self.now }
        ensures range { result < 16 }
    {
        match self {
            Io::NRead { .. } => READ_CLASS,
            Io::NWrite { .. } | Io::NWriteR { .. } => WRITE_CLASS,
            Io::SWrite { .. } => STREAMING_WRITE_CLASS,
            _ => RESPONSE_CLASS,
        }
    }

    /// What stands behind the IDs of the packet that carries it.
    pub fn behind_ids(&self) -> ArrayVec<u8, MAX_BEHIND_IDS>
        requires { IsGood self.now }
        ensures value { result.items ≡ io_behind_ids self.now }
        ensures even { array_vec_len result % 2 ≡ 0 }
    {
        match self {
            Io::NRead { tid, addr, size } => {
                joined(&asked(NREAD, usize::from(*size), *tid, *addr), &[])
            }
            Io::NWrite { addr, load } => {
                let load = load.as_slice();
                joined(&asked(NWRITE, load.len(), 0, *addr), load)
            }
            Io::NWriteR { tid, addr, load } => {
                let load = load.as_slice();
                joined(&asked(NWRITE_R, load.len(), *tid, *addr), load)
            }
            Io::SWrite { addr, load } => joined(&addr.to_be_bytes(), load.as_slice()),
            Io::Reply { status, tid, load } => replied(*status, *tid, load),
            _ => unreachable!(),
        }
    }
}

/// What stands before the data of a request for so many bytes.
fn asked(ttype: u8, size: usize, tid: u8, addr: u32) -> [u8; 6]
    requires ttype { ttype < 16 }
    requires size { IsTrue (is_size size) }
    requires aligned { IsAligned addr }
    ensures { result ≡ io_request_head ttype size tid addr }
{
    let [a, b, c, d] = (addr + 4 * wdptr_of(size)).to_be_bytes();
    [16 * ttype + code_of(size), tid, a, b, c, d]
}

/// What stands behind the IDs of a response.
fn replied(status: u8, tid: u8, load: &Option<Load>) -> ArrayVec<u8, MAX_BEHIND_IDS>
    requires { status < 16 }
    ensures { result.items ≡ io_behind_ids (Io.Reply status tid load.now) }
{
    match load {
        None => joined(&[16 * WITHOUT_DATA + status, tid], &[]),
        Some(load) => joined(&[16 * WITH_DATA + status, tid], load.as_slice()),
    }
}

/// The code of a size.
fn code_of(size: usize) -> u8
    ensures value { result ≡ code_of size }
    ensures range { result < 16 }
{
    if size < 32 { 11 } else { 12 }
}

/// The bit wdptr of a size.
fn wdptr_of(size: usize) -> u32
    ensures value { result ≡ wdptr_of size }
    ensures range { result < 2 }
{
    if size == 8 || size == 32 { 0 } else { 1 }
}

/// Two pieces, one after the other.
fn joined(front: &[u8], back: &[u8]) -> ArrayVec<u8, MAX_BEHIND_IDS>
    requires { length front.now + length back.now ≤ 70 }
    ensures { result.items ≡ front.now ++ back.now }
{
    let mut bytes = ArrayVec::new();
    append(&mut bytes, front);
    append(&mut bytes, back);
    bytes
}

/// Appends bytes for which there is room.
fn append(bytes: &mut ArrayVec<u8, MAX_BEHIND_IDS>, more: &[u8])
    requires { array_vec_len bytes.old + length more.now ≤ 70 }
    ensures { bytes.new.items ≡ bytes.old.items ++ more.now }
{
    if bytes.try_extend_from_slice(more).is_err() {
        unreachable!();
    }
}
