//! Packets in words.

use crate::registers::put_register;
use crate::text::Text;
use maint_packets::{Op, Request, Response, read_request, read_response};
use rio_packets::Packet;
use std::alloc::{AllocError, Global};

/// How many bytes of data are put as they are.
const MOST_DATA: usize = 16;

/// How many bytes of longer data are put.
const FRONT: usize = 8;

/// The transport type of packets with 16-bit IDs.
const LARGE: u8 = 1;

/// How many bytes of a body stand before its first CRC.
const FIRST_BYTES: usize = 80;

/// How many places there are for the requests of a size of IDs.
const PLACES: usize = 65_536;

/// The registers that requests asked for, by their source and transaction number: a response does
/// not name its register. Sources with 16-bit IDs of one low byte share places, and the last
/// request stays.
#[derive(Drop)]
pub struct AskedRegisters {
    noted: Vec<Option<Noted>>,
}

/// A request that was seen.
#[derive(Clone, Copy)]
struct Noted {
    source: u16,
    offset: u32,
}

impl AskedRegisters {
    /// No request was seen.
    pub fn new(alloc: Global) -> Result<AskedRegisters, AllocError> {
        Ok(AskedRegisters {
            noted: vec![in alloc; None; 2 * PLACES]?,
        })
    }

    /// Notes the register of a request, if the packet is one.
    pub fn note(&mut self, packet: &Packet) {
        if let Some(request) = read_request(packet) {
            let at = place_of(request.large, request.source, request.tid);
            if let Some(place) = self.noted.get_mut(at) {
                *place = Some(Noted {
                    source: request.source,
                    offset: request.offset,
                });
            }
        }
    }

    /// The register that is answered, if its request is still noted.
    fn register_of(&self, response: &Response) -> Option<u32> {
        let at = place_of(response.large, response.dest, response.tid);
        let noted = (*self.noted.get(at)?)?;
        (noted.source == response.dest).then_some(noted.offset)
    }
}

/// Where the register of a request is noted.
fn place_of(large: bool, source: u16, tid: u8) -> usize {
    let first = if large { PLACES } else { 0 };
    first + 256 * usize::from(source % 256) + usize::from(tid)
}

/// What a packet says, with its ackID in front if it has one.
pub fn put_packet(out: &mut Text, asked: &mut AskedRegisters, packet: &Packet) {
    asked.note(packet);
    if let (Some(source), Some(dest)) = (packet.source(), packet.dest()) {
        put_ids(out, packet, source, dest);
        put_priority(out, packet);
        out.put(b", ");
        put_body(out, asked, packet);
    } else {
        put_priority(out, packet);
        out.put(b", IDs of another width");
    }
}

/// The IDs of a packet.
fn put_ids(out: &mut Text, packet: &Packet, source: u16, dest: u16) {
    out.put_number(u64::from(source));
    out.put(b" to ");
    out.put_number(u64::from(dest));
    out.put(if packet.tt() == LARGE {
        b" with 16-bit IDs, "
    } else {
        b", "
    });
}

/// The priority of a packet.
fn put_priority(out: &mut Text, packet: &Packet) {
    out.put(b"priority ");
    out.put_number(u64::from(packet.prio()));
}

/// What a packet asks for, answers or has.
fn put_body(out: &mut Text, asked: &AskedRegisters, packet: &Packet) {
    if packet.hop().is_some() {
        put_maintenance(out, asked, packet);
    } else {
        out.put(b"type ");
        out.put_number(u64::from(packet.ftype()));
        out.put(b", ");
        put_data(out, packet);
    }
}

/// What a packet says that came with an ackID.
pub fn put_sent_packet(out: &mut Text, asked: &mut AskedRegisters, ack: u8, packet: &Packet) {
    out.put(b"packet ");
    out.put_number(u64::from(ack));
    out.put(b": ");
    put_packet(out, asked, packet);
}

/// What a maintenance packet says.
fn put_maintenance(out: &mut Text, asked: &AskedRegisters, packet: &Packet) {
    if let Some(request) = read_request(packet) {
        put_request(out, &request);
    } else if let Some(response) = read_response(packet) {
        put_response(out, asked, &response);
    } else {
        put_other(out, packet);
    }
}

/// What a request asks for.
fn put_request(out: &mut Text, request: &Request) {
    out.put(match request.op {
        Op::Read | Op::BadRead => b"read ",
        Op::Write { .. } | Op::BadWrite => b"write ",
    });
    out.put_number(u64::from(request.tid));
    out.put(b" hop ");
    out.put_number(u64::from(request.hop));
    out.put(b", ");
    put_register(out, request.offset);
    match request.op {
        Op::Read => {}
        Op::Write { value } => put_value(out, value),
        Op::BadRead | Op::BadWrite => out.put(b", not of four bytes"),
    }
}

/// What a register is, or is to be.
fn put_value(out: &mut Text, value: u32) {
    out.put(b" = ");
    out.put_hex(&value.to_be_bytes());
}

/// What a response says, with the register that was asked for if its request was seen.
fn put_response(out: &mut Text, asked: &AskedRegisters, response: &Response) {
    out.put(if response.write {
        b"write-response "
    } else {
        b"read-response "
    });
    out.put_number(u64::from(response.tid));
    out.put(b", ");
    if response.status != 0 {
        out.put(b"error ");
        out.put_number(u64::from(response.status));
        return;
    }
    match response.words {
        None => out.put(b"done"),
        Some(words) => put_words(out, asked.register_of(response), words),
    }
}

/// The word of two that an offset names, or both if it is not known.
fn put_words(out: &mut Text, offset: Option<u32>, words: (u32, u32)) {
    match offset {
        Some(offset) => {
            put_register(out, offset);
            put_value(out, if offset & 4 == 0 { words.0 } else { words.1 });
        }
        None => {
            out.put_hex(&words.0.to_be_bytes());
            out.put(b" ");
            out.put_hex(&words.1.to_be_bytes());
        }
    }
}

/// What is neither a request nor a response of a known form.
fn put_other(out: &mut Text, packet: &Packet) {
    let ttype = packet.bytes().get(ids_end(packet)).copied().unwrap_or(0) >> 4;
    match ttype {
        2 => out.put(b"read-response of another form"),
        3 => out.put(b"write-response of another form"),
        4 => out.put(b"port-write"),
        _ => {
            out.put(b"reserved maintenance type ");
            out.put_number(u64::from(ttype));
        }
    }
}

/// The data of a packet, without its CRCs and pad. Zeros at its end are taken for a pad.
fn put_data(out: &mut Text, packet: &Packet) {
    let form = packet.bytes();
    let back = if form.ends_with(&[0, 0]) { 4 } else { 2 };
    let body = form.get(..form.len().saturating_sub(back)).unwrap_or(b"");
    let first = body
        .get(ids_end(packet)..body.len().min(FIRST_BYTES))
        .unwrap_or(b"");
    let second = body.get(FIRST_BYTES + 2..).unwrap_or(b"");
    let count = first.len() + second.len();
    if count == 0 {
        out.put(b"no data");
    } else if count <= MOST_DATA {
        out.put_hex(first);
    } else {
        out.put_number(count as u64);
        out.put(b" bytes ");
        out.put_hex(first.get(..FRONT).unwrap_or(first));
        out.put(b"..");
    }
}

/// Where the IDs of a packet end.
fn ids_end(packet: &Packet) -> usize {
    if packet.tt() == LARGE { 6 } else { 4 }
}
