//! The entries of a known map.
use crate::entries::entries_of;
use crate::map::{Device, Kind, Path};
use arrayvec::ArrayVec;

fn path(ports: &[u8]) -> Path {
    let mut items = ArrayVec::new();
    for port in ports {
        if items.try_push(*port).is_err() {
            break;
        }
    }
    Path::new(items)
}

#[test]
fn entries_lead_along_the_tree(rt: HostRuntime) {
    let switch = Kind::Switch { ports: 4, entry: 3 };
    let known: [(Kind, &[u8]); 5] = [
        (Kind::Endpoint { id: 1 }, &[]),
        (switch, &[0]),
        (switch, &[0, 0]),
        (Kind::Endpoint { id: 0 }, &[0, 0, 2]),
        (Kind::Endpoint { id: 2 }, &[0, 1]),
    ];
    let mut devices = Vec::new(rt.alloc());
    for (i, (kind, ports)) in known.iter().enumerate() {
        let device = Device {
            tag: i as u32 + 1,
            kind: *kind,
            path: path(ports),
        };
        if devices.push(device).is_err() {
            panic!(rt; "memory");
        }
    }
    let entries = entries_of(rt.alloc(), devices.as_slice()).expect(&rt, "memory");
    let wanted = [
        (2, 0, 0),
        (2, 1, 3),
        (2, 2, 1),
        (3, 0, 2),
        (3, 1, 3),
        (3, 2, 3),
    ];
    assert!(rt; entries.len() == wanted.len());
    for (entry, known) in entries.iter().zip(wanted.iter()) {
        assert!(rt; (entry.tag, entry.id, entry.port) == *known);
    }
}
