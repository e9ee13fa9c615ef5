//! The CRC of a control symbol, five bits a step by a table.
ghost use Rattle.std.specs.Prelude.{◌≡◌, ℕ, ◌+◌, ◌*◌, ◌%◌, ◌^◌, ◌<◌, ◌≤◌, ◌++◌, false, replicate, slice_index, bit_xor};
ghost use Rattle.crc_division.specs.Bits.{bits};
ghost use Rattle.crc_division.specs.Division.{remainder};
ghost use Rattle.rio_symbols.specs.Crc5.{field_bits, crc5_divisor, crc5_entry, crc5_of, crc5_value};

use crate::symbol::Symbol;

/// The CRC of five bits: the entry of a number below 32 is the remainder of its five bits and five
/// 0 bits by x^5 + x^4 + x^2 + 1 (RapidIO Interconnect Specification 1.3, Part 6, control symbol
/// CRC).
pub const CRC5_TABLE: [u8; 32] = [
    0x00, 0x15, 0x1f, 0x0a, 0x0b, 0x1e, 0x14, 0x01, 0x16, 0x03, 0x09, 0x1c, 0x1d, 0x08, 0x02, 0x17,
    0x19, 0x0c, 0x06, 0x13, 0x12, 0x07, 0x0d, 0x18, 0x0f, 0x1a, 0x10, 0x05, 0x04, 0x11, 0x1b, 0x0e,
];

/// The register before the first bit.
const PRESET: u8 = 31;

/// Each entry of the table is the remainder of the long division.
pub fn crc5_table_has_remainders()
    ensures { (five : ℕ) → five < 32
        → bits 5 (slice_index CRC5_TABLE five)
        ≡ remainder (bits 5 five ++ replicate 5 false) crc5_divisor }
{}

/// The CRC of a symbol, below 32: polynomial x^5 + x^4 + x^2 + 1, preset to ones, as in RapidIO
/// Interconnect Specification 1.3, Part 6. That a 0 bit is added after the nineteen bits of the
/// fields is this project's profile.
pub fn crc5(symbol: &Symbol) -> u8
    ensures value { result ≡ crc5_value symbol.now }
    ensures bits { bits 5 result ≡ crc5_of symbol.now }
    ensures small { result < 32 }
{
    let bits = field_number(symbol) << 1;
    let register = feed(PRESET, bits >> 15);
    let register = feed(register, bits >> 10);
    let register = feed(register, bits >> 5);
    feed(register, bits)
}

/// The register after the last five bits of a number.
fn feed(register: u8, number: u32) -> u8
    requires { register < 32 }
    ensures value { result ≡ crc5_entry (bit_xor register (number % 32)) }
    ensures small { result < 32 }
{
    CRC5_TABLE[usize::from(register ^ (number & 31) as u8)]
}

/// The nineteen bits of the fields as one number.
fn field_number(symbol: &Symbol) -> u32
    ensures bits { bits 19 result ≡ field_bits symbol.now }
    ensures small { result < 2 ^ 19 }
{
    let number = append(u32::from(symbol.s0), 5, symbol.p0);
    let number = append(number, 5, symbol.p1);
    let number = append(number, 3, symbol.s1);
    append(number, 3, symbol.cmd)
}

/// A number with a field of that many bits written behind it.
fn append(number: u32, width: u32, field: u8) -> u32
    requires room { number < 2 ^ 16 }
    requires narrow { width ≤ 8 }
    requires fits { field < 2 ^ width }
    ensures { result ≡ number * 2 ^ width + field }
{
    number << width | u32::from(field)
}
