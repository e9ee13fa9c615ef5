//! The lines with which events begin, and the line of an event that was not sent.
use crate::lines::{FAR, NEAR, Page, a_packet, two_names};
use fabric_script::{Hex, Line, PortRef};
use link_model::Event;
use rio_chars::{Char, Outbox};
use rio_symbols::Symbol;
use std::test::Fail;
use trace_lines::*;

const SET_UPS: &[u8] = b"> endpoint A 255\n> switch B 16\n> link A.0 B.15\n> buffers A.0 4\n\
> route B 1023 0\n> default B 254\n> lock B 65535\n> large A 4097\n> credits B.15\n";

const SENDS: &[u8] = b"> send A 0 15 2 cafe0001\n> send B 3 9 255 -\n";

const ACCESSES: &[u8] = b"> read A 1 2 255 7 00006c\n> write B 2 254 0 255 fffff8 0123abcd\n";

const LARGE_PACKETS: &[u8] = b"> send16 A 0 15 8194 cafe\n> read16 A 1 4098 255 7 00006c\n\
> write16 B 2 65535 0 255 fffff8 0123abcd\n";

const AT_PORTS: &[u8] = b"> pump A.0 31\n> deliver B.0 20\n> alter A.0 8 dcb\n> alter A.0 9 inv\n\
> insert B.0 100000 k1c\n> erase B.0 0 4\n> timeout A.0\n> settle B.0\n";

const AT_NODES: &[u8] = b"> move B\n> collect A\n> run 100000\n";

const NOT_SENT: &[u8] = b"undetected 8 A.0 symbol 6 20 31 7 0\n\
undetected 4294967295 B.0 packet 31 000f0201cafe0001a9bb0000\n";

#[test]
fn lines_of_set_up_are_their_words(rt: HostRuntime) -> Result<(), Fail> {
    let alloc = rt.alloc();
    let names = two_names(&rt, alloc)?;
    let last = PortRef { node: 1, port: 15 };
    let mut page = Page::new(alloc, Vec::new(alloc))?;
    let mut outbox = Outbox::new(&mut page.buffer, &mut page.sink);
    let mut writer = TraceWriter {
        outbox: &mut outbox,
        names: &names,
        counts: PacketCounts::new(),
    };
    writer.write_begun(&Line::Endpoint { name: 0, id: 255 });
    writer.write_begun(&Line::Switch { name: 1, ports: 16 });
    writer.write_begun(&Line::Link { a: NEAR, b: last });
    writer.write_begun(&Line::Buffers { port: NEAR, n: 4 });
    writer.write_begun(&Line::Route {
        node: 1,
        id: 1023,
        p: 0,
    });
    writer.write_begun(&Line::Default { node: 1, p: 254 });
    writer.write_begun(&Line::Lock { node: 1, id: 65535 });
    writer.write_begun(&Line::Large { node: 0, id: 4097 });
    writer.write_begun(&Line::Credits { port: last });
    outbox.flush();
    assert_eq!(rt; page.sink.written(), SET_UPS);
    Ok(())
}

#[test]
fn lines_of_sends_are_their_words(rt: HostRuntime) -> Result<(), Fail> {
    let alloc = rt.alloc();
    let names = two_names(&rt, alloc)?;
    let mut page = Page::new(alloc, Vec::new(alloc))?;
    let mut outbox = Outbox::new(&mut page.buffer, &mut page.sink);
    let mut writer = TraceWriter {
        outbox: &mut outbox,
        names: &names,
        counts: PacketCounts::new(),
    };
    writer.write_begun(&Line::Send {
        node: 0,
        prio: 0,
        ftype: 15,
        dest: 2,
        hex: Hex::new(vec![in alloc; 0xca, 0xfe, 0, 1]?),
    });
    writer.write_begun(&Line::Send {
        node: 1,
        prio: 3,
        ftype: 9,
        dest: 255,
        hex: Hex::new(Vec::new(alloc)),
    });
    outbox.flush();
    assert_eq!(rt; page.sink.written(), SENDS);
    Ok(())
}

#[test]
fn lines_of_accesses_are_their_words(rt: HostRuntime) -> Result<(), Fail> {
    let alloc = rt.alloc();
    let names = two_names(&rt, alloc)?;
    let mut page = Page::new(alloc, Vec::new(alloc))?;
    let mut outbox = Outbox::new(&mut page.buffer, &mut page.sink);
    let mut writer = TraceWriter {
        outbox: &mut outbox,
        names: &names,
        counts: PacketCounts::new(),
    };
    writer.write_begun(&Line::Read {
        node: 0,
        prio: 1,
        dest: 2,
        hop: 255,
        tid: 7,
        offset: 0x6c,
    });
    writer.write_begun(&Line::Write {
        node: 1,
        prio: 2,
        dest: 254,
        hop: 0,
        tid: 255,
        offset: 0xfffff8,
        value: 0x0123abcd,
    });
    outbox.flush();
    assert_eq!(rt; page.sink.written(), ACCESSES);
    Ok(())
}

#[test]
fn lines_of_large_packets_are_their_words(rt: HostRuntime) -> Result<(), Fail> {
    let alloc = rt.alloc();
    let names = two_names(&rt, alloc)?;
    let mut page = Page::new(alloc, Vec::new(alloc))?;
    let mut outbox = Outbox::new(&mut page.buffer, &mut page.sink);
    let mut writer = TraceWriter {
        outbox: &mut outbox,
        names: &names,
        counts: PacketCounts::new(),
    };
    writer.write_begun(&Line::Send16 {
        node: 0,
        prio: 0,
        ftype: 15,
        dest: 8194,
        hex: Hex::new(vec![in alloc; 0xca, 0xfe]?),
    });
    writer.write_begun(&Line::Read16 {
        node: 0,
        prio: 1,
        dest: 4098,
        hop: 255,
        tid: 7,
        offset: 0x6c,
    });
    writer.write_begun(&Line::Write16 {
        node: 1,
        prio: 2,
        dest: 65535,
        hop: 0,
        tid: 255,
        offset: 0xfffff8,
        value: 0x0123abcd,
    });
    outbox.flush();
    assert_eq!(rt; page.sink.written(), LARGE_PACKETS);
    Ok(())
}

#[test]
fn lines_at_ports_are_their_words(rt: HostRuntime) -> Result<(), Fail> {
    let alloc = rt.alloc();
    let names = two_names(&rt, alloc)?;
    let start = Char::Special(0x1c);
    let mut page = Page::new(alloc, Vec::new(alloc))?;
    let mut outbox = Outbox::new(&mut page.buffer, &mut page.sink);
    let mut writer = TraceWriter {
        outbox: &mut outbox,
        names: &names,
        counts: PacketCounts::new(),
    };
    writer.write_begun(&Line::Pump { port: NEAR, n: 31 });
    writer.write_begun(&Line::Deliver { port: FAR, n: 20 });
    writer.write_begun(&Line::Alter {
        port: NEAR,
        place: 8,
        ch: Char::Data(0xcb),
    });
    writer.write_begun(&Line::Alter {
        port: NEAR,
        place: 9,
        ch: Char::Invalid,
    });
    writer.write_begun(&Line::Insert {
        port: FAR,
        place: 100000,
        ch: start,
    });
    writer.write_begun(&Line::Erase {
        port: FAR,
        place: 0,
        n: 4,
    });
    writer.write_begun(&Line::Timeout { port: NEAR });
    writer.write_begun(&Line::Settle { port: FAR });
    outbox.flush();
    assert_eq!(rt; page.sink.written(), AT_PORTS);
    Ok(())
}

#[test]
fn lines_at_nodes_are_their_words(rt: HostRuntime) -> Result<(), Fail> {
    let alloc = rt.alloc();
    let names = two_names(&rt, alloc)?;
    let mut page = Page::new(alloc, Vec::new(alloc))?;
    let mut outbox = Outbox::new(&mut page.buffer, &mut page.sink);
    let mut writer = TraceWriter {
        outbox: &mut outbox,
        names: &names,
        counts: PacketCounts::new(),
    };
    writer.write_begun(&Line::Move { node: 1 });
    writer.write_begun(&Line::Collect { node: 0 });
    writer.write_begun(&Line::Run { n: 100000 });
    outbox.flush();
    assert_eq!(rt; page.sink.written(), AT_NODES);
    Ok(())
}

#[test]
fn event_that_was_not_sent_is_named(rt: HostRuntime) -> Result<(), Fail> {
    let alloc = rt.alloc();
    let names = two_names(&rt, alloc)?;
    let symbol = Symbol {
        s0: 6,
        p0: 20,
        p1: 31,
        s1: 7,
        cmd: 0,
    };
    let mut page = Page::new(alloc, Vec::new(alloc))?;
    let mut outbox = Outbox::new(&mut page.buffer, &mut page.sink);
    let mut writer = TraceWriter {
        outbox: &mut outbox,
        names: &names,
        counts: PacketCounts::new(),
    };
    writer.write_undetected(8, NEAR, &Event::Ctl(symbol));
    writer.write_undetected(u32::MAX, FAR, &Event::Pkt(31, a_packet(&rt)));
    outbox.flush();
    assert_eq!(rt; page.sink.written(), NOT_SENT);
    Ok(())
}
