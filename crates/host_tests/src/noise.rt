//! A ring of three switches, numbered while the characters of its wires are changed.
use fabric_maint::{FabricMaint, ListNoise};
use fabric_map::Map;
use fabric_ports::Fabric;
use fabric_script::{PortRef, parse_set_up};
use host_enumerate::{EnumEnd, enumerate, find_host, write_map};
use link_model::Event;
use rio_chars::{Char, Edit, MemSink, Outbox, TextBuffer};
use rio_symbols::Symbol;
use std::alloc::Global;
use std::test::Fail;

/// A host, three endpoints without IDs, and a ring of three switches. S is the node of number 4.
const RING: &[u8] = b"endpoint H 5\nendpoint A 255\nendpoint B 255\nendpoint C 255\n\
switch S 4\nswitch T 3\nswitch U 3\n\
link H.0 S.0\nlink S.1 T.0\nlink T.1 U.0\nlink U.1 S.2\nlink A.0 S.3\nlink B.0 T.2\nlink C.0 U.2\n";

/// What numbers it, whatever changes are noticed.
const MAP: &[u8] = b"device 1 endpoint 5 host\ndevice 2 switch 4 0\ndevice 3 switch 3 0.1\n\
device 4 switch 3 0.1.1\ndevice 5 endpoint 0 0.1.1.2\n\
device 6 endpoint 1 0.1.2\ndevice 7 endpoint 2 0.3\n\
entry 2 0 1\nentry 2 1 1\nentry 2 2 3\nentry 2 5 0\n\
entry 3 0 1\nentry 3 1 2\nentry 3 2 0\nentry 3 5 0\n\
entry 4 0 2\nentry 4 1 0\nentry 4 2 0\nentry 4 5 0\n";

/// Numbers the ring from H, while the wires meet these edits.
fn numbered(alloc: Global, edits: Vec<Edit>) -> Result<Result<Map, EnumEnd>, Fail> {
    let Ok(script) = parse_set_up(alloc, RING) else {
        return Err(Fail::from("not parsed"));
    };
    let Ok(Ok(host)) = find_host(alloc, &script, b"H") else {
        return Err(Fail::from("no host"));
    };
    let Ok(mut fabric) = Fabric::new(alloc, &script) else {
        return Err(Fail::from("no memory"));
    };
    let Ok(mut sink) = MemSink::new(alloc, 4_000_000, 65_536, Vec::new(alloc)) else {
        return Err(Fail::from("no memory"));
    };
    let mut noise = ListNoise::new(edits);
    let mut maint = FabricMaint::new(&mut fabric, &script, host, &mut noise, &mut sink);
    Ok(enumerate(alloc, &mut maint))
}

/// Whether the lines of a map are these.
fn reads(alloc: Global, map: &Map, lines: &[u8]) -> Result<bool, Fail> {
    let Ok(mut buffer) = TextBuffer::new(alloc) else {
        return Err(Fail::from("no memory"));
    };
    let Ok(mut sink) = MemSink::new(alloc, 4096, 4096, Vec::new(alloc)) else {
        return Err(Fail::from("no memory"));
    };
    let mut outbox = Outbox::new(&mut buffer, &mut sink);
    write_map(&mut outbox, map);
    outbox.flush();
    Ok(sink.written() == lines)
}

/// Each changes the ackID of a packet, if it meets one, so that it is asked for again.
#[test]
fn two_hundred_altered_characters_leave_the_map(rt: HostRuntime) -> Result<(), Fail> {
    let ch = Char::Data(8);
    let edits = vec![in rt.alloc(); Edit::Alter { place: 4, ch }; 200]?;
    let Ok(map) = numbered(rt.alloc(), edits)? else {
        return Err(Fail::from("no map"));
    };
    assert!(rt; reads(rt.alloc(), &map, MAP)?);
    Ok(())
}

/// The first symbol is start-of-packet, whose bytes are 80 F8 1F behind the delimiter. With 54 for
/// 80 it is packet-not-accepted beside start-of-packet, and its CRC is the same.
#[test]
fn one_altered_character_that_passes_unseen_is_told_at_its_port(
    rt: HostRuntime,
) -> Result<(), Fail> {
    let ch = Char::Data(0x54);
    let edits = vec![in rt.alloc(); Edit::Alter { place: 1, ch }]?;
    let Err(EnumEnd::Undetected { port, event }) = numbered(rt.alloc(), edits)? else {
        return Err(Fail::from("seen"));
    };
    assert_eq!(rt; port, PortRef { node: 4, port: 0 });
    let told = Symbol {
        s0: 2,
        p0: 20,
        p1: 31,
        s1: 0,
        cmd: 0,
    };
    assert_eq!(rt; event, Event::Ctl(told));
    Ok(())
}
