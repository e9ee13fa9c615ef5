//! Packets whose bytes and CRCs were made outside this project (the CRCs by Python's
//! `binascii.crc_hqx`), and the forms of requests and responses.
ghost use Rattle.io_packets.specs.Forms.{IsSized};

use crate::{Io, Load, read_io, serve, write_io};
use rio_packets::{Header, build, check};
use std::process::Abort;
use std::test::Fail;

/// An NWRITE_R of the bytes 1 to 8 to the address 8, and the response to it.
const WRITE: [u8; 20] = [
    0, 0x45, 2, 1, 0x5b, 0, 0, 0, 0, 8, 1, 2, 3, 4, 5, 6, 7, 8, 0x54, 0x83,
];

const WRITTEN: [u8; 8] = [0, 0x8d, 1, 2, 0, 0, 0x15, 0x6e];

/// An NREAD of eight bytes at the address 8, and the response to it.
const READ: [u8; 12] = [0, 0x42, 2, 1, 0x4b, 1, 0, 0, 0, 8, 0xcd, 0xab];

const HAS_READ: [u8; 16] = [0, 0x8d, 1, 2, 0x80, 1, 1, 2, 3, 4, 5, 6, 7, 8, 0x8d, 0x23];

/// An NREAD behind the end of a memory of 64 bytes, and the response to it.
const READ_BEYOND: [u8; 12] = [0, 0x42, 2, 1, 0x4b, 0, 0, 0, 0, 0x40, 0xae, 0x36];

const FAILED: [u8; 8] = [0, 0x8d, 1, 2, 7, 0, 0x8c, 0xf9];

/// An SWRITE of the bytes 1 to 8 to the address 8.
const STREAM: [u8; 20] = [
    0, 0x46, 2, 1, 0, 0, 0, 8, 1, 2, 3, 4, 5, 6, 7, 8, 0x7a, 0x9a, 0, 0,
];

/// What the packet of these bytes carries.
fn carried(rt: &impl Abort, bytes: &[u8]) -> Io
    ensures { IsSized result }
{
    match check(bytes) {
        Ok((_, packet)) => read_io(&packet),
        Err(_) => panic!(rt; "no packet"),
    }
}

/// Serves the packet of some bytes, and compares the packet of the answer.
fn answers(rt: &impl Abort, memory: &mut Vec<u8>, asked: &[u8], answered: &[u8]) {
    match serve(memory, &carried(rt, asked)) {
        Some(answer) => assert_eq!(rt; write_io(2, 1, 2, &answer).bytes(), answered),
        None => panic!(rt; "no answer"),
    }
}

#[test]
fn a_memory_is_written_and_read(rt: HostRuntime) -> Result<(), Fail> {
    let mut memory = vec![in rt.alloc(); 0; 64]?;
    answers(&rt, &mut memory, &WRITE, &WRITTEN);
    answers(&rt, &mut memory, &READ, &HAS_READ);
    answers(&rt, &mut memory, &READ_BEYOND, &FAILED);
    Ok(())
}

#[test]
fn requests_have_these_bytes(rt: HostRuntime) {
    let read = Io::NRead {
        tid: 1,
        addr: 8,
        size: 8,
    };
    let write = Io::NWriteR {
        tid: 0,
        addr: 8,
        load: Load::of_bytes(&[1, 2, 3, 4, 5, 6, 7, 8]),
    };
    assert_eq!(rt; write_io(1, 2, 1, &read).bytes(), READ.as_slice());
    assert_eq!(rt; write_io(1, 2, 1, &write).bytes(), WRITE.as_slice());
}

#[test]
fn a_streaming_write_ends_in_a_pad(rt: HostRuntime) {
    match carried(&rt, &STREAM) {
        Io::SWrite { addr, load } => {
            assert_eq!(rt; addr, 8);
            assert_eq!(rt; load.as_slice(), [1, 2, 3, 4, 5, 6, 7, 8].as_slice());
        }
        _ => panic!(rt; "no streaming write"),
    }
}

/// What it is, and how many bytes it has or asks for.
fn kind_of(io: &Io) -> (&'static str, usize) {
    match io {
        Io::NRead { size, .. } => ("nread", usize::from(*size)),
        Io::NWrite { load, .. } => ("nwrite", load.as_slice().len()),
        Io::NWriteR { load, .. } => ("nwriter", load.as_slice().len()),
        Io::SWrite { load, .. } => ("swrite", load.as_slice().len()),
        Io::Reply { load, .. } => (
            "reply",
            load.as_ref().map_or(0, |load| load.as_slice().len()),
        ),
        Io::BadRead { .. } => ("bad read", 0),
        Io::BadWriteR { .. } => ("bad nwriter", 0),
        Io::BadWrite => ("bad write", 0),
        Io::Other => ("other", 0),
    }
}

/// What a packet carries that has a format type, a first byte behind its IDs, a last byte of its
/// address word, and so many bytes behind the IDs. All other bytes are 0.
fn kind(rt: &impl Abort, ftype: u8, first: u8, last: u8, length: usize) -> (&'static str, usize) {
    let header = Header {
        prio: 0,
        ftype: ftype & 15,
        dest: 2,
        source: 1,
        large: false,
    };
    let mut rest = [0; 80];
    rest[0] = first;
    rest[if ftype == 6 { 3 } else { 5 }] = last;
    match build(&header, rest.get(..length).unwrap_or(&rest)) {
        Ok(packet) => kind_of(&read_io(&packet)),
        Err(_) => panic!(rt; "no packet"),
    }
}

#[test]
fn each_form_is_named(rt: HostRuntime) {
    for (ftype, first, last, length, expected) in [
        (2, 0x4b, 0, 6, ("nread", 8)),
        (2, 0x4b, 4, 6, ("nread", 16)),
        (2, 0x4c, 0, 6, ("nread", 32)),
        (2, 0x4c, 4, 6, ("nread", 64)),
        (2, 0x4b, 1, 6, ("bad read", 0)),
        (2, 0x4a, 0, 6, ("bad read", 0)),
        (2, 0x5b, 0, 6, ("other", 0)),
        (2, 0x4b, 0, 8, ("other", 0)),
        (5, 0x4b, 0, 14, ("nwrite", 8)),
        (5, 0x4c, 4, 70, ("nwrite", 64)),
        (5, 0x5b, 4, 22, ("nwriter", 16)),
        (5, 0x5b, 0, 22, ("bad nwriter", 0)),
        (5, 0x4b, 0, 6, ("bad write", 0)),
        (5, 0x4b, 1, 14, ("bad write", 0)),
        (5, 0x4b, 0, 2, ("other", 0)),
        (6, 0, 0, 12, ("swrite", 8)),
        (6, 0, 4, 68, ("swrite", 64)),
        (6, 0, 1, 12, ("bad write", 0)),
        (6, 0, 0, 4, ("bad write", 0)),
        (6, 0, 0, 76, ("bad write", 0)),
        (13, 0, 0, 2, ("reply", 0)),
        (13, 7, 0, 2, ("reply", 0)),
        (13, 1, 0, 2, ("other", 0)),
        (13, 0x80, 0, 10, ("reply", 8)),
        (13, 0x87, 0, 10, ("other", 0)),
        (13, 0x80, 0, 26, ("other", 0)),
        (15, 0x4b, 0, 6, ("other", 0)),
    ] {
        assert_eq!(rt;
            kind(&rt, ftype, first, last, length),
            expected,
            "{ftype} {first:x} {last} {length}"
        );
    }
}
