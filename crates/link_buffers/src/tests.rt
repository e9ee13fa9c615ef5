//! Packets put to stores and taken from them, by priority and in order.
use crate::{InStore, OutStore};
use rio_packets::Packet;
use std::test::*;

#[test]
fn received_packets_share_the_buffers(rt: HostRuntime) {
    let Ok(mut store) = InStore::new(rt.alloc(), 4) else {
        panic!(rt; "no memory");
    };
    assert!(rt; store.has_room(0));
    store.put(Packet::default());
    assert_eq!(rt; store.free(), 3);
    assert!(rt; !store.has_room(0));
    assert!(rt; store.has_room(1));
    assert!(rt; store.head(0).is_some());
    assert!(rt; store.pop(0).is_some());
    assert!(rt; store.pop(0).is_none());
}

#[test]
fn packets_to_be_sent_have_places(rt: HostRuntime) {
    let Ok(mut store) = OutStore::new(rt.alloc()) else {
        panic!(rt; "no memory");
    };
    assert!(rt; store.has_room(0));
    store.put(Packet::default());
    assert_eq!(rt; store.len(0), 1);
    assert!(rt; store.at(0, 0).is_some());
    assert!(rt; store.at(0, 1).is_none());
    assert!(rt; store.pop(0).is_some());
    assert_eq!(rt; store.len(0), 0);
}
