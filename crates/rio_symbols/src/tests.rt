//! Symbols whose bytes were computed elsewhere.
use super::*;
use Delimiter::{Pd, Sc};

/// The fields, the bytes and the delimiter, as the examples of docs/symbols.md have them; a
/// bit-serial register in another language gives the same CRCs.
#[test]
fn example_symbols_are_read_and_written(rt: HostRuntime) {
    let examples: [([u8; 5], [u8; 3], Delimiter); 20] = [
        ([4, 0, 31, 0, 0], [0x80, 0xf8, 0x1f], Pd),
        ([4, 0, 31, 2, 0], [0x80, 0xfa, 0x18], Pd),
        ([4, 0, 31, 3, 0], [0x80, 0xfb, 0x01], Sc),
        ([4, 0, 31, 4, 4], [0x80, 0xfc, 0x87], Sc),
        ([4, 0, 31, 7, 0], [0x80, 0xff, 0x0f], Sc),
        ([0, 0, 31, 7, 0], [0x00, 0xff, 0x16], Sc),
        ([0, 1, 31, 7, 0], [0x01, 0xff, 0x12], Sc),
        ([0, 2, 31, 7, 0], [0x02, 0xff, 0x1e], Sc),
        ([1, 0, 31, 7, 0], [0x20, 0xff, 0x1d], Sc),
        ([1, 1, 31, 7, 0], [0x21, 0xff, 0x19], Sc),
        ([1, 2, 31, 7, 0], [0x22, 0xff, 0x15], Sc),
        ([2, 0, 1, 7, 0], [0x40, 0x0f, 0x14], Sc),
        ([2, 0, 2, 7, 0], [0x40, 0x17, 0x05], Sc),
        ([2, 0, 4, 7, 0], [0x40, 0x27, 0x12], Sc),
        ([2, 0, 5, 7, 0], [0x40, 0x2f, 0x0e], Sc),
        ([2, 0, 31, 7, 0], [0x40, 0xff, 0x00], Sc),
        ([6, 0, 4, 7, 0], [0xc0, 0x27, 0x0b], Sc),
        ([6, 0, 5, 7, 0], [0xc0, 0x2f, 0x17], Sc),
        ([6, 0, 16, 7, 0], [0xc0, 0x87, 0x13], Sc),
        ([6, 1, 16, 7, 0], [0xc1, 0x87, 0x17], Sc),
    ];
    for (fields, bytes, before) in examples {
        assert!(rt; is_spelled(fields, bytes, before), "at {bytes:?}");
    }
}

/// Fields drawn at random; the bytes come from a bit-serial register in another language.
#[test]
fn drawn_symbols_are_read_and_written(rt: HostRuntime) {
    let drawn: [([u8; 5], [u8; 3], Delimiter); 9] = [
        ([5, 9, 25, 0, 1], [169, 200, 45], Pd),
        ([1, 23, 3, 3, 0], [55, 27, 9], Sc),
        ([1, 27, 26, 1, 3], [59, 209, 96], Pd),
        ([1, 27, 3, 1, 3], [59, 25, 127], Pd),
        ([0, 25, 3, 3, 0], [25, 27, 15], Sc),
        ([2, 18, 26, 2, 1], [82, 210, 57], Pd),
        ([0, 0, 0, 0, 0], [0, 0, 14], Pd),
        ([7, 31, 31, 7, 7], [255, 255, 230], Sc),
        ([3, 21, 10, 5, 6], [117, 85, 222], Sc),
    ];
    for (fields, bytes, before) in drawn {
        assert!(rt; is_spelled(fields, bytes, before), "at {bytes:?}");
    }
}

/// A NOP with one of its bits changed, in turn in each field.
#[test]
fn changed_symbols_are_refused_with_both_crcs(rt: HostRuntime) {
    let changed: [([u8; 3], u8, u8); 5] = [
        ([0x00, 0xff, 0x0f], 15, 22),
        ([0x81, 0xff, 0x0f], 15, 11),
        ([0x80, 0x7f, 0x0f], 15, 13),
        ([0x80, 0xfe, 0x0f], 15, 22),
        ([0x80, 0xff, 0x2f], 15, 16),
    ];
    for (bytes, found, computed) in changed {
        assert_eq!(rt; from_bytes(&bytes), Err(BadCrc { found, computed }));
    }
}

/// Whether the bytes are read as these fields, are written for them, and come after that delimiter.
fn is_spelled(fields: [u8; 5], bytes: [u8; 3], before: Delimiter) -> bool {
    match from_bytes(&bytes) {
        Ok(symbol) => {
            let read = [symbol.s0, symbol.p0, symbol.p1, symbol.s1, symbol.cmd];
            read == fields && to_bytes(&symbol) == bytes && delimiter(&symbol) == before
        }
        Err(_) => false,
    }
}
