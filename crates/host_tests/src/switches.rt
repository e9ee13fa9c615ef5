//! Switches and an endpoint over ports with no protocol. The packets' bytes were made outside this
//! project, their CRCs by Python's `binascii.crc_hqx`.
use link_port::{PlainPort, pass};
use maint_registers::Registers;
use rio_packets::{Packet, check};
use std::alloc::Global;
use std::process::Abort;
use switch_core::{Collected, Step, endpoint_collect, endpoint_send, switch_step};

/// A read over one switch, what it becomes there, its response, and what that becomes there.
const READ: [u8; 12] = [0, 8, 9, 1, 8, 5, 1, 0, 0, 0x10, 0x63, 0x3e];

const READ_MOVED: [u8; 12] = [0, 8, 9, 1, 8, 5, 0, 0, 0, 0x10, 0x15, 0x8a];

const RESPONSE: [u8; 20] = [
    0, 0x48, 1, 9, 0x20, 5, 0xff, 0, 0, 0, 0x10, 0, 1, 0x18, 0, 0, 0, 0, 5, 0xb2,
];

const RESPONSE_MOVED: [u8; 20] = [
    0, 0x48, 1, 9, 0x20, 5, 0xfe, 0, 0, 0, 0x10, 0, 1, 0x18, 0, 0, 0, 0, 6, 0xc7,
];

/// Packets of the transport types 2 and 3.
const OTHER_2: [u8; 8] = [0, 0x2f, 2, 1, 0x58, 0x74, 0, 0];

const OTHER_3: [u8; 8] = [0, 0x3f, 2, 1, 0x1b, 0x17, 0, 0];

/// The packet of these bytes.
fn packet(rt: &impl Abort, bytes: &[u8]) -> Packet {
    match check(bytes) {
        Ok((_, packet)) => packet,
        Err(_) => panic!(rt; "no packet"),
    }
}

/// An empty port.
fn port(rt: &impl Abort, alloc: Global) -> PlainPort {
    match PlainPort::new(alloc, 8) {
        Ok(port) => port,
        Err(_) => panic!(rt; "no memory"),
    }
}

/// The step of a switch that has as many ports as its registers say.
fn step(ports: &mut [PlainPort], registers: &mut Registers) -> Step {
    if !registers.is_switch() || ports.len() != usize::from(registers.ports()) {
        return Step::Nothing;
    }
    switch_step(ports, registers)
}

/// A packet comes in at a port.
fn receive(rt: &impl Abort, alloc: Global, to: &mut PlainPort, bytes: &[u8]) {
    let mut far = port(rt, alloc);
    endpoint_send(&mut far, packet(rt, bytes));
    pass(&mut far, to);
}

/// A move from one port to another.
fn moved(rt: &impl Abort, from: u8, to: u8, bytes: &[u8]) -> Step {
    Step::Moved {
        from,
        to,
        packet: packet(rt, bytes),
    }
}

/// No script sends such packets.
#[test]
fn packets_without_ids_are_dropped(rt: HostRuntime) {
    let alloc = rt.alloc();
    for bytes in [OTHER_2, OTHER_3] {
        let mut ports = [port(&rt, alloc), port(&rt, alloc)];
        let mut registers = Registers::switch(2, 0b11);
        registers.set_route(2, 1);
        registers.set_default(1);
        receive(&rt, alloc, &mut ports[0], &bytes);
        let dropped = Step::Dropped {
            from: 0,
            packet: packet(&rt, &bytes),
        };
        assert_eq!(rt; step(&mut ports, &mut registers), dropped);
    }
}

#[test]
fn a_read_goes_over_a_switch_and_its_response_comes_back(rt: HostRuntime) {
    let alloc = rt.alloc();
    let mut near = [port(&rt, alloc), port(&rt, alloc)];
    let mut far = [port(&rt, alloc), port(&rt, alloc)];
    let mut near_registers = Registers::switch(2, 0b11);
    near_registers.set_route(9, 1);
    near_registers.set_route(1, 0);
    let mut far_registers = Registers::switch(2, 0b01);
    receive(&rt, alloc, &mut near[0], &READ);
    assert_eq!(rt;
        step(&mut near, &mut near_registers),
        moved(&rt, 0, 1, &READ)
    );
    pass(&mut near[1], &mut far[0]);
    let answered = Step::Answered {
        port: 0,
        request: packet(&rt, &READ_MOVED),
        response: packet(&rt, &RESPONSE),
    };
    assert_eq!(rt; step(&mut far, &mut far_registers), answered);
    pass(&mut far[0], &mut near[1]);
    let back = moved(&rt, 1, 0, &RESPONSE);
    assert_eq!(rt; step(&mut near, &mut near_registers), back);
    let mut endpoint = port(&rt, alloc);
    pass(&mut near[0], &mut endpoint);
    let left = Collected::Left(packet(&rt, &RESPONSE_MOVED));
    let mut registers = Registers::endpoint(1, true);
    assert_eq!(rt; endpoint_collect(&mut endpoint, &mut registers), left);
}
