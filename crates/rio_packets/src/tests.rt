//! The bytes and CRCs here were computed elsewhere, by Python's `binascii.crc_hqx`.
use crate::crc::{PRESET, run};
use crate::{BadLength, Cause, Header, Packet, build, cause_number, check, max_rest};
use std::process::Abort;

const HEADER: Header = Header {
    prio: 0,
    ftype: 15,
    dest: 2,
    source: 1,
    large: false,
};

const LARGE_HEADER: Header = Header {
    prio: 0,
    ftype: 15,
    dest: 8194,
    source: 4097,
    large: true,
};

#[test]
fn crc_of_the_nine_digits(rt: HostRuntime) {
    assert_eq!(rt; run(PRESET, b"123456789"), 0x29b1);
}

#[test]
fn one_crc_up_to_80_bytes(rt: HostRuntime) {
    assert_eq!(rt;
        Packet::default().bytes(),
        [0, 0, 0, 0, 0x84, 0xc0, 0, 0].as_slice()
    );
    let smallest = build(&HEADER, &[]).expect(&rt, "4 bytes");
    assert_eq!(rt;
        smallest.bytes(),
        [0, 15, 2, 1, 0xde, 0xb2, 0, 0].as_slice()
    );
    let exact = build(&HEADER, &[0xca, 0xfe]).expect(&rt, "6 bytes");
    assert_eq!(rt;
        exact.bytes(),
        [0, 15, 2, 1, 0xca, 0xfe, 0x46, 0xff].as_slice()
    );
    let mut rest = [0; 76];
    rest[0] = 0xde;
    rest[1] = 0xb2;
    rest[75] = 1;
    let longest = build(&HEADER, &rest).expect(&rt, "80 bytes");
    assert_eq!(rt;
        longest.bytes().get(76..).unwrap_or(&[]),
        [0, 0, 0, 1, 0x10, 0x21, 0, 0].as_slice()
    );
}

#[test]
fn two_crcs_beyond_80_bytes(rt: HostRuntime) {
    let mut rest = [0; 270];
    rest[0] = 0xde;
    rest[1] = 0xb2;
    rest[267] = 1;
    let longest = build(&HEADER, &rest[..268]).expect(&rt, "272 bytes");
    assert_eq!(rt; longest.bytes().len(), 276);
    assert_eq!(rt;
        longest.bytes().get(78..84).unwrap_or(&[]),
        [0; 6].as_slice()
    );
    assert_eq!(rt;
        longest.bytes().get(272..).unwrap_or(&[]),
        [0, 1, 0x10, 0x21].as_slice()
    );
    rest[75] = 1;
    rest[77] = 1;
    let shortest = build(&HEADER, &rest[..78]).expect(&rt, "82 bytes");
    let tail = [0, 0, 0, 1, 0x10, 0x21, 0, 1, 0x10, 0x21, 0, 0];
    assert_eq!(rt; shortest.bytes().get(76..).unwrap_or(&[]), tail.as_slice());
    assert_eq!(rt; build(&HEADER, &rest), Err(BadLength));
    assert_eq!(rt; build(&HEADER, &rest[..3]), Err(BadLength));
}

/// The bytes are read, and refused with any one bit altered that is not of the ackID and not the
/// bit behind it.
fn is_read_unless_altered(rt: &impl Abort, packet: &Packet) {
    let sent = packet.with_ack(21);
    assert_eq!(rt; check(&sent), Ok((21, packet.copy())));
    for place in 0..sent.len() {
        for bit in [1, 2, 4, 8, 16, 32, 64, 128] {
            if place > 0 || bit <= 2 {
                is_refused_altered(rt, packet, place, bit);
            }
        }
    }
}

/// The bytes are refused with these bits altered in the byte at this place.
fn is_refused_altered(rt: &impl Abort, packet: &Packet, place: usize, bits: u8) {
    let mut altered = packet.with_ack(21);
    if let Some(byte) = altered.get_mut(place) {
        *byte ^= bits;
    }
    assert_eq!(rt;
        check(&altered),
        Err(Cause::BadPacket),
        "{bits} altered at {place}"
    );
}

#[test]
fn altered_bits_are_refused(rt: HostRuntime) {
    let rest = [0xa5; 268];
    for length in [0, 4, 76, 78, 268] {
        let packet = build(&HEADER, &rest[..length]).expect(&rt, "an even length");
        is_read_unless_altered(&rt, &packet);
    }
    assert_eq!(rt; check(&[0; 7]), Err(Cause::General));
    assert_eq!(rt; check(&[0; 277]), Err(Cause::General));
    let smallest = build(&HEADER, &[]).expect(&rt, "4 bytes");
    assert_eq!(rt;
        smallest.bytes(),
        [0, 15, 2, 1, 0xde, 0xb2, 0, 0].as_slice()
    );
    let ignored = [4, 15, 2, 1, 0xde, 0xb2, 0, 0];
    assert_eq!(rt; check(&ignored), Ok((0, smallest)));
    assert_eq!(rt; cause_number(Cause::BadPacket), 4);
}

#[test]
fn ids_have_one_byte_or_two(rt: HostRuntime) {
    let packet = build(&LARGE_HEADER, &[]).expect(&rt, "6 bytes");
    assert_eq!(rt;
        packet.bytes(),
        [0, 0x1f, 0x20, 2, 0x10, 1, 0x25, 0xcf].as_slice()
    );
    assert_eq!(rt; (packet.prio(), packet.tt(), packet.ftype()), (0, 1, 15));
    assert_eq!(rt; (packet.dest(), packet.source()), (Some(8194), Some(4097)));
    has_ids(&rt, &[0, 15, 2, 1, 0xde, 0xb2, 0, 0], Some(2), Some(1));
    has_ids(
        &rt,
        &[0, 0x1f, 2, 0xff, 1, 0, 0x7e, 0x89],
        Some(767),
        Some(256),
    );
    has_ids(
        &rt,
        &[0, 0x1f, 4, 0, 1, 0, 0x96, 0x73],
        Some(1024),
        Some(256),
    );
    has_ids(&rt, &[0, 0x2f, 2, 1, 0x58, 0x74, 0, 0], None, None);
    has_ids(&rt, &[0, 0x3f, 2, 1, 0x1b, 0x17, 0, 0], None, None);
}

/// The bytes are a packet with these IDs.
fn has_ids(rt: &impl Abort, bytes: &[u8], dest: Option<u16>, source: Option<u16>) {
    let Ok((_, packet)) = check(bytes) else {
        panic!(rt; "no packet");
    };
    assert_eq!(rt; (packet.dest(), packet.source()), (dest, source));
}

#[test]
fn data_behind_ids_of_two_bytes(rt: HostRuntime) {
    let rest = [0xa5; 268];
    let longest = build(&LARGE_HEADER, &rest[..266]).expect(&rt, "272 bytes");
    assert_eq!(rt; longest.bytes().len(), 276);
    assert_eq!(rt;
        longest.bytes().get(79..83).unwrap_or(&[]),
        [0xa5, 0x6f, 0xfb, 0xa5].as_slice()
    );
    assert_eq!(rt;
        longest.bytes().get(273..).unwrap_or(&[]),
        [0xa5, 0x88, 0x59].as_slice()
    );
    is_read_unless_altered(&rt, &longest);
    assert_eq!(rt; build(&LARGE_HEADER, &rest), Err(BadLength));
}

#[test]
fn hop_count_is_lowered_under_a_new_crc(rt: HostRuntime) {
    let small = [0, 8, 9, 1, 8, 5, 1, 0, 0, 0x10, 0x63, 0x3e];
    let lower = [0, 8, 9, 1, 8, 5, 0, 0, 0, 0x10, 0x15, 0x8a];
    is_lowered(&rt, &small, &lower);
    let large = [0, 0x18, 0, 9, 1, 0, 8, 5, 1, 0, 0, 0x10, 0xbc, 0xd5, 0, 0];
    let lower = [0, 0x18, 0, 9, 1, 0, 8, 5, 0, 0, 0, 0x10, 0xca, 0x61, 0, 0];
    is_lowered(&rt, &large, &lower);
}

/// A packet whose hop count is 1 becomes this one.
fn is_lowered(rt: &impl Abort, bytes: &[u8], lower: &[u8]) {
    let Ok((_, mut packet)) = check(bytes) else {
        panic!(rt; "no packet");
    };
    assert_eq!(rt; packet.hop(), Some(1));
    packet.lower_hop();
    assert_eq!(rt; packet.bytes(), lower);
}

/// How many bytes behind 8-bit IDs make a maintenance packet: also two less, which a pad makes
/// up for.
const SMALL_RESTS: [usize; 18] = [
    4, 6, 12, 14, 20, 22, 28, 30, 36, 38, 44, 46, 52, 54, 60, 62, 68, 70,
];

/// How many behind 16-bit IDs.
const LARGE_RESTS: [usize; 9] = [6, 14, 22, 30, 38, 46, 54, 62, 70];

#[test]
fn lengths_of_maintenance_packets(rt: HostRuntime) {
    for length in 0..135 {
        hop_is_told(&rt, false, 2 * length, SMALL_RESTS.contains(&(2 * length)));
        hop_is_told(&rt, true, 2 * length, LARGE_RESTS.contains(&(2 * length)));
    }
}

/// A packet of format type 8 with so much data tells its hop count, which can be lowered, or is no
/// maintenance packet.
fn hop_is_told(rt: &impl Abort, large: bool, length: usize, told: bool) {
    if length > max_rest(large) {
        return;
    }
    let header = Header {
        ftype: 8,
        large,
        ..HEADER
    };
    let rest = [7; 268];
    let mut packet = build(&header, &rest[..length]).expect(rt, "an even length");
    assert_eq!(rt; packet.hop(), told.then_some(7), "{length} bytes");
    if packet.hop().is_some_and(|hop| hop > 0) {
        packet.lower_hop();
        assert_eq!(rt; packet.hop(), Some(6), "{length} bytes");
        assert_eq!(rt; check(&packet.with_ack(3)), Ok((3, packet)));
    }
}
