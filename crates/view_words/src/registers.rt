//! The names of registers: those of `docs/registers.md`.

use crate::text::Text;

/// The offset of the error and status register of port 0, and of the first register behind that of
/// port 15.
const STATUS: (u32, u32) = (0x00_0158, 0x00_0358);

/// How far the registers of two neighbouring ports are apart.
const STEP: u32 = 0x20;

/// Puts the name of the register at an offset, of 24 bits.
pub fn put_register(out: &mut Text, offset: u32) {
    let (first, last) = STATUS;
    if let Some(name) = register_name(offset) {
        out.put(name);
    } else if offset >= first && offset < last && (offset - first) % STEP == 0 {
        out.put(b"status of port ");
        out.put_number(u64::from((offset - first) / STEP));
    } else {
        let [_, high, middle, low] = offset.to_be_bytes();
        out.put(b"register ");
        out.put_hex(&[high, middle, low]);
    }
}

/// The name of a register, other than those of single ports.
fn register_name(offset: u32) -> Option<&'static [u8]> {
    match offset {
        0x00_0000 => Some(b"identity"),
        0x00_000c => Some(b"assembly information"),
        0x00_0010 => Some(b"features"),
        0x00_0014 => Some(b"switch port information"),
        0x00_0034 => Some(b"route limit"),
        0x00_0060 => Some(b"base device ID"),
        0x00_0068 => Some(b"host lock"),
        0x00_006c => Some(b"component tag"),
        0x00_0070 => Some(b"route destination"),
        0x00_0074 => Some(b"route port"),
        0x00_0078 => Some(b"default port"),
        _ => None,
    }
}
