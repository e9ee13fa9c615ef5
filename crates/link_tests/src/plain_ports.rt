//! Two ports of the plain network, between which packets pass without a protocol.
use link_port::{PlainPort, PortFace, pass};
use rio_packets::Packet;
use std::test::*;

#[test]
fn one_packet_passes_without_protocol(rt: HostRuntime) {
    let (Ok(mut near), Ok(mut far)) = (PlainPort::new(rt.alloc(), 4), PlainPort::new(rt.alloc(), 4))
    else {
        panic!(rt; "no memory");
    };
    let packet = Packet::default();
    if near.out_room(packet.prio()) {
        near.out_put(packet);
    }
    assert!(rt; pass(&mut near, &mut far).is_some());
    assert!(rt; pass(&mut near, &mut far).is_none());
    assert!(rt; far.in_head(0).is_some());
    assert!(rt; far.in_pop(0).is_some());
    assert!(rt; far.in_pop(0).is_none());
}
