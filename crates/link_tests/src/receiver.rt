//! Each entry of the table of an input half, met in its typed state.
use link_buffers::InStore;
use link_receiver::{AfterPacket, InErrorStopped, InOk, InRetryStopped};
use rio_packets::{Cause, check};
use rio_symbols::{Symbol, to_bytes};
use std::alloc::Global;
use std::test::*;

/// A packet of priority 0.
const LOW: [u8; 8] = [0x00, 0x0f, 0x02, 0x01, 0xde, 0xb2, 0x00, 0x00];

/// A packet of priority 3.
const HIGH: [u8; 8] = [0x00, 0xcf, 0x02, 0x01, 0xf8, 0x45, 0x00, 0x00];

/// Each cause with the packet-not-accepted that tells it, where ackID 0 is expected.
const CAUSES: [(Cause, [u8; 3]); 5] = [
    (Cause::UnexpectedAck, [0x40, 0x0f, 0x14]),
    (Cause::BadSymbol, [0x40, 0x17, 0x05]),
    (Cause::BadPacket, [0x40, 0x27, 0x12]),
    (Cause::BadChar, [0x40, 0x2f, 0x0e]),
    (Cause::General, [0x40, 0xff, 0x00]),
];

/// The column of an input that takes packets. Other symbols do nothing, and have no call.
#[test]
fn an_input_that_is_ok_answers_each_event(rt: HostRuntime) -> Result<(), Fail> {
    let (_, low) = check(&LOW).ok().ok_or("low")?;
    let (_, high) = check(&HIGH).ok().ok_or("high")?;
    let mut store = InStore::new(rt.alloc(), 4)?;

    // Of four buffers three are kept for the higher priorities, so that the second packet of
    // priority 0 has no room.
    let port = InOk::new().packet(0, &low, &mut store, false);
    let port = accepted(port, [0x00, 0xff, 0x16], 1).ok_or("accepted 0")?;
    let port = retried(
        port.packet(1, &low, &mut store, false),
        [0x21, 0xff, 0x19],
        1,
    );
    let port = port.ok_or("retry 1")?.restart();
    let port = accepted(
        port.packet(1, &high, &mut store, false),
        [0x01, 0xff, 0x12],
        2,
    );
    let port = port.ok_or("accepted 1")?;
    let port = retried(
        port.packet(2, &low, &mut store, false),
        [0x22, 0xff, 0x15],
        2,
    );
    let port = port.ok_or("retry 2")?.restart();
    let port = accepted(
        port.packet(2, &high, &mut store, false),
        [0x02, 0xff, 0x1e],
        3,
    );
    assert!(rt; port.is_some() && store.free() == 1);

    // Another ackID, also one before the expected one, and also where there is no room.
    for (ack, packet) in [(1, &low), (31, &low), (1, &high)] {
        let port = InOk::new().packet(ack, packet, &mut store, false);
        assert!(rt; refused(port, [0x40, 0x0f, 0x14], 0), "at {ack}");
    }
    assert_eq!(rt; store.free(), 1);

    for (cause, bytes) in CAUSES {
        assert!(rt; stops(InOk::new().bad(cause), bytes), "at {cause:?}");
    }
    assert!(rt; stops(InOk::new().restart(), [0x40, 0xff, 0x00]));
    assert!(rt; goes_on(InOk::new().request(), [0xc0, 0x87, 0x13]));
    Ok(())
}

/// A port that tells its free buffers: of four, three are free after the first packet.
#[test]
fn an_input_tells_the_buffers_that_are_free_behind_the_packet(rt: HostRuntime) -> Result<(), Fail> {
    let (_, low) = check(&LOW).ok().ok_or("low")?;
    let mut store = InStore::new(rt.alloc(), 4)?;
    let port = InOk::new().packet(0, &low, &mut store, true);
    assert!(rt; accepted(port, [0x00, 0x1f, 0x0f], 1).is_some());
    assert_eq!(rt; store.free(), 3);
    Ok(())
}

/// The ackIDs are counted modulo 32: the 32nd packet has ackID 31, and the next one has 0 again.
#[test]
fn the_ack_after_31_is_0(rt: HostRuntime) -> Result<(), Fail> {
    let (_, low) = check(&LOW).ok().ok_or("low")?;
    let mut store = InStore::new(rt.alloc(), 4)?;
    let mut port = InOk::new();
    for ack in 0..31 {
        port = taken(port.packet(ack, &low, &mut store, false)).ok_or("taken")?;
        assert_eq!(rt; port.expected(), ack + 1);
        store.pop(0);
    }
    let port = accepted(
        port.packet(31, &low, &mut store, false),
        [0x1f, 0xff, 0x00],
        0,
    );
    let port = port.ok_or("accepted 31")?;
    store.pop(0);
    let port = accepted(
        port.packet(0, &low, &mut store, false),
        [0x00, 0xff, 0x16],
        1,
    );
    assert!(rt; port.is_some());
    Ok(())
}

/// The column of an input that waits for restart-from-retry. Packets are dropped and other symbols
/// do nothing; neither has a call.
#[test]
fn an_input_that_asked_for_a_retry_answers_each_event(rt: HostRuntime) -> Result<(), Fail> {
    for (cause, bytes) in CAUSES {
        let port = retry_stopped(rt.alloc())?;
        assert!(rt; stops(port.bad(cause), bytes), "at {cause:?}");
    }
    let port = retry_stopped(rt.alloc())?;
    assert_eq!(rt; port.restart().expected(), 0);
    let port = retry_stopped(rt.alloc())?;
    assert!(rt; goes_on(port.request(), [0xc0, 0x27, 0x0b]));
    Ok(())
}

/// The column of an input that met an error, whatever the error was. Packets are dropped, what is
/// bad and restart-from-retry are ignored, and other symbols do nothing; none of them has a call.
#[test]
fn an_input_that_met_an_error_answers_a_request_alone(rt: HostRuntime) -> Result<(), Fail> {
    for (cause, _) in CAUSES {
        let (port, _) = InOk::new().bad(cause);
        assert!(rt; goes_on(port.request(), [0xc0, 0x2f, 0x17]), "at {cause:?}");
        let (port, _) = retry_stopped(rt.alloc())?.bad(cause);
        assert!(rt; goes_on(port.request(), [0xc0, 0x2f, 0x17]), "at {cause:?}");
    }
    let (port, _) = InOk::new().restart();
    assert!(rt; goes_on(port.request(), [0xc0, 0x2f, 0x17]));
    Ok(())
}

/// An input that expects ackID 0 and had no room for it.
fn retry_stopped(alloc: Global) -> Result<InRetryStopped, Fail> {
    let (_, low) = check(&LOW).ok().ok_or("low")?;
    let mut store = InStore::new(alloc, 4)?;
    if store.has_room(low.prio()) {
        store.put(low.copy());
    }
    let port = InOk::new().packet(0, &low, &mut store, false);
    Ok(retried(port, [0x20, 0xff, 0x1d], 0).ok_or("retry 0")?)
}

/// The next state, if the packet was taken.
fn taken(after: AfterPacket) -> Option<InOk> {
    match after {
        AfterPacket::Accepted(port, _) => Some(port),
        _ => None,
    }
}

/// The next state, if the packet was taken with this symbol and this ackID is expected then.
fn accepted(after: AfterPacket, bytes: [u8; 3], expected: u8) -> Option<InOk> {
    let AfterPacket::Accepted(port, symbol) = after else {
        return None;
    };
    if to_bytes(&symbol) == bytes && port.expected() == expected {
        Some(port)
    } else {
        None
    }
}

/// The next state, if the packet has to be sent again, with this symbol, and this ackID is expected
/// then.
fn retried(after: AfterPacket, bytes: [u8; 3], expected: u8) -> Option<InRetryStopped> {
    let AfterPacket::Retry(port, symbol) = after else {
        return None;
    };
    if to_bytes(&symbol) == bytes && port.expected() == expected {
        Some(port)
    } else {
        None
    }
}

/// Whether the packet was an error, with this symbol, and this ackID is expected then.
fn refused(after: AfterPacket, bytes: [u8; 3], expected: u8) -> bool {
    match after {
        AfterPacket::NotAccepted(port, symbol) => {
            to_bytes(&symbol) == bytes && port.expected() == expected
        }
        _ => false,
    }
}

/// Whether an error of an input that expects ackID 0 is answered with this symbol.
fn stops(after: (InErrorStopped, Symbol), bytes: [u8; 3]) -> bool {
    let (port, symbol) = after;
    to_bytes(&symbol) == bytes && port.expected() == 0
}

/// Whether a link-request to an input that expects ackID 0 is answered with this symbol.
fn goes_on(after: (InOk, Symbol), bytes: [u8; 3]) -> bool {
    let (port, symbol) = after;
    to_bytes(&symbol) == bytes && port.expected() == 0
}
