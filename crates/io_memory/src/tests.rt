//! Lines, and packets at a memory of 64 bytes, whose bytes and CRCs were made outside this project
//! (the CRCs by Python's `binascii.crc_hqx`).
use crate::{Meeting, Met, meet, meet_without, write_met};
use io_packets::{Load, write_io};
use rio_chars::{MemSink, Outbox, TextBuffer};
use rio_packets::{Packet, check};
use std::process::Abort;
use std::test::Fail;

/// An NWRITE_R of the bytes 1 to 8 to the address 8, and the response to it.
const WRITE: [u8; 20] = [
    0, 0x45, 2, 1, 0x5b, 0, 0, 0, 0, 8, 1, 2, 3, 4, 5, 6, 7, 8, 0x54, 0x83,
];

const WRITTEN: [u8; 8] = [0, 0x8d, 1, 2, 0, 0, 0x15, 0x6e];

/// An NREAD of eight bytes at the address 8, and the response to it.
const READ: [u8; 12] = [0, 0x42, 2, 1, 0x4b, 1, 0, 0, 0, 8, 0xcd, 0xab];

const HAS_READ: [u8; 16] = [0, 0x8d, 1, 2, 0x80, 1, 1, 2, 3, 4, 5, 6, 7, 8, 0x8d, 0x23];

/// An NREAD behind the end, and the response to it.
const READ_BEYOND: [u8; 12] = [0, 0x42, 2, 1, 0x4b, 0, 0, 0, 0, 0x40, 0xae, 0x36];

const FAILED: [u8; 8] = [0, 0x8d, 1, 2, 7, 0, 0x8c, 0xf9];

/// Lines of each kind.
const LINES: &[u8] = b"read B 00000008 0102030405060708
write B fffffff8 0102030405060708
done A 255 0 0102030405060708
done A 0 7 -
fail B 2
other B 15
";

/// The packet of these bytes.
fn packet(rt: &impl Abort, bytes: &[u8]) -> Packet {
    match check(bytes) {
        Ok((_, packet)) => packet,
        Err(_) => panic!(rt; "no packet"),
    }
}

/// Meets a packet, compares the packet of the answer, and returns what became of it.
fn met(rt: &impl Abort, memory: &mut Vec<u8>, asked: &[u8], answered: &[u8]) -> Met {
    let Meeting { met, answer } = meet(memory, &packet(rt, asked));
    match answer {
        Some(answer) => assert_eq!(rt; write_io(2, 1, 2, &answer).bytes(), answered),
        None => panic!(rt; "no answer"),
    }
    met
}

#[test]
fn a_read_shows_what_was_written(rt: HostRuntime) -> Result<(), Fail> {
    let mut memory = vec![in rt.alloc(); 0; 64]?;
    let bytes = [1, 2, 3, 4, 5, 6, 7, 8];
    let written = Met::Written {
        addr: 8,
        load: Load::of_bytes(&bytes),
    };
    let read = Met::Read {
        addr: 8,
        load: Load::of_bytes(&bytes),
    };
    assert_eq!(rt; met(&rt, &mut memory, &WRITE, &WRITTEN), written);
    assert_eq!(rt; met(&rt, &mut memory, &READ, &HAS_READ), read);
    let failed = met(&rt, &mut memory, &READ_BEYOND, &FAILED);
    assert_eq!(rt; failed, Met::Failed { ftype: 2 });
    Ok(())
}

#[test]
fn without_memory_only_a_response_is_done(rt: HostRuntime) {
    let done = Met::Done {
        tid: 0,
        status: 7,
        load: None,
    };
    assert_eq!(rt; meet_without(&packet(&rt, &FAILED)), done);
    assert_eq!(rt; meet_without(&packet(&rt, &READ)), Met::Other { ftype: 2 });
}

/// The data of a line.
fn data() -> Load {
    Load::of_bytes(&[1, 2, 3, 4, 5, 6, 7, 8])
}

#[test]
fn each_line_has_its_words(rt: HostRuntime) -> Result<(), Fail> {
    let alloc = rt.alloc();
    let Ok(mut sink) = MemSink::new(alloc, 256, 256, Vec::new(alloc)) else {
        panic!(rt; "no memory");
    };
    let Ok(mut buffer) = TextBuffer::new(alloc) else {
        panic!(rt; "no memory");
    };
    let mut outbox = Outbox::new(&mut buffer, &mut sink);
    let read = Met::Read {
        addr: 8,
        load: data(),
    };
    let written = Met::Written {
        addr: 0xffff_fff8,
        load: data(),
    };
    let done = Met::Done {
        tid: 255,
        status: 0,
        load: Some(data()),
    };
    let failed = Met::Done {
        tid: 0,
        status: 7,
        load: None,
    };
    write_met(&mut outbox, b"B", &read);
    write_met(&mut outbox, b"B", &written);
    write_met(&mut outbox, b"A", &done);
    write_met(&mut outbox, b"A", &failed);
    write_met(&mut outbox, b"B", &Met::Failed { ftype: 2 });
    write_met(&mut outbox, b"B", &Met::Other { ftype: 15 });
    outbox.flush();
    assert_eq!(rt; sink.written(), LINES);
    Ok(())
}
