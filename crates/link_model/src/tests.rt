//! Symbols that are sent, by the fields that the standard gives them.
use crate::{
    PortStatus, UNTOLD, end_of_packet, link_request, link_response, packet_accepted,
    packet_not_accepted, packet_retry, restart_from_retry, start_of_packet, status,
};
use rio_packets::Cause;
use rio_symbols::to_bytes;
use std::test::*;

/// The bytes were reckoned in Python, apart from this code, by the tables and the CRC of
/// `docs/symbols.md`. That the CRC runs over a twentieth bit is this project's own choice, so these
/// are no bytes of the standard.
#[test]
fn symbols_have_the_bytes_reckoned_apart(rt: HostRuntime) {
    assert_eq!(rt; to_bytes(&start_of_packet(0, UNTOLD)), [0x80, 0xf8, 0x1f]);
    assert_eq!(rt; to_bytes(&end_of_packet(0, UNTOLD)), [0x80, 0xfa, 0x18]);
    assert_eq!(rt;
        to_bytes(&restart_from_retry(0, UNTOLD)),
        [0x80, 0xfb, 0x01]
    );
    assert_eq!(rt; to_bytes(&link_request(0, UNTOLD)), [0x80, 0xfc, 0x87]);
    assert_eq!(rt; to_bytes(&packet_accepted(1, UNTOLD)), [0x01, 0xff, 0x12]);
    assert_eq!(rt; to_bytes(&packet_retry(2, UNTOLD)), [0x22, 0xff, 0x15]);
    assert_eq!(rt; to_bytes(&status(0, 4)), [0x80, 0x27, 0x1d]);
    assert_eq!(rt; to_bytes(&packet_accepted(0, 3)), [0x00, 0x1f, 0x0f]);
    assert_eq!(rt;
        to_bytes(&packet_not_accepted(0, Cause::BadPacket)),
        [0x40, 0x27, 0x12]
    );
    assert_eq!(rt;
        to_bytes(&link_response(1, PortStatus::Ok)),
        [0xc1, 0x87, 0x17]
    );
}
