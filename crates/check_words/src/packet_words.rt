//! What of a word is to blame that is no packet.
ghost use Rattle.std.specs.Prelude.{◌≡◌, ◌≢◌, ◌≤◌, ◌<◌, ◌+◌, ◌/◌, ◌%◌, ℕ, IfOk, IfSome, IsFalse, length, slice_index};
ghost use Rattle.rio_chars.specs.HexText.{hex_digit};
ghost use Rattle.rio_packets.specs.LinkForm.{AreBytes, IsCrc};
ghost use Rattle.rio_packets.specs.Register.{fed, running};
ghost use Rattle.rio_packets.specs.Tables.{after_zeros};
ghost use Rattle.check_words.specs.BadPackets.{AreBadBytes, IsBadPacket, IsCrcPlace};

use crate::misfits::WordFault;
use rio_chars::read_hex;
use rio_packets::CRC16_TABLE;
use std::alloc::{AllocError, Global};

/// The least bytes of a packet.
const LEAST_BYTES: usize = 8;

/// The most bytes of a packet.
const MOST_BYTES: usize = 276;

/// How many bytes of a longer body come before its first CRC.
const FIRST_PART: usize = 80;

/// What of a word is to blame that is to be a packet.
pub(crate) fn packet_fault(alloc: Global, word: &[u8]) -> Result<Option<WordFault>, AllocError>
    ensures { IfOk result (λ found. IfSome found (IsBadPacket word.now)) }
{
    if let Some(fault) = digit_fault(word) {
        return Ok(Some(fault));
    }
    if word.len() % 2 == 1 {
        return Ok(Some(WordFault::OddDigits));
    }
    match read_hex(alloc, word)? {
        Some(bytes) => Ok(bytes_fault(bytes.as_slice())),
        None => Ok(None),
    }
}

/// The first byte of a word that is no lower-case hexadecimal digit.
fn digit_fault(word: &[u8]) -> Option<WordFault>
    ensures { IfSome result (IsBadPacket word.now) }
{
    for (i, byte) in word.iter().enumerate() {
        if matches!(*byte, b'A'..=b'F') {
            return Some(WordFault::Capital(i + 1));
        }
        if !is_digit(*byte) {
            return Some(WordFault::NoDigit(i + 1));
        }
    }
    None
}

/// Whether a byte is a lower-case hexadecimal digit.
fn is_digit(byte: u8) -> bool
    ensures { IsFalse result → (n : ℕ) → n < 16 → byte ≢ hex_digit n }
{
    matches!(byte, b'0'..=b'9' | b'a'..=b'f')
}

/// What of the bytes is to blame that are to be those of a packet.
fn bytes_fault(bytes: &[u8]) -> Option<WordFault>
    requires { AreBytes bytes.now }
    ensures { IfSome result (AreBadBytes bytes.now) }
{
    let count = bytes.len();
    if count < LEAST_BYTES || count > MOST_BYTES || count % 4 != 0 {
        return Some(WordFault::PacketLength(count));
    }
    if bytes[0] >= 4 {
        return Some(WordFault::AckId);
    }
    first_crc_fault(bytes).or(last_crc_fault(bytes))
}

/// What of the CRC behind 80 bytes is to blame, if one stands there.
fn first_crc_fault(bytes: &[u8]) -> Option<WordFault>
    requires { AreBytes bytes.now }
    ensures { IfSome result (AreBadBytes bytes.now) }
{
    if bytes.len() < FIRST_PART + 4 {
        return None;
    }
    crc_fault(bytes, FIRST_PART)
}

/// What of the CRC at the end is to blame, or of that before two zero bytes there.
fn last_crc_fault(bytes: &[u8]) -> Option<WordFault>
    requires bytes { AreBytes bytes.now }
    requires least { 8 ≤ length bytes.now }
    ensures { IfSome result (AreBadBytes bytes.now) }
{
    match bytes {
        [.., 0, 0] => crc_fault(bytes, bytes.len() - 4),
        _ => crc_fault(bytes, bytes.len() - 2),
    }
}

/// What is to blame if the two bytes behind so many are not the CRC of these.
fn crc_fault(bytes: &[u8], behind: usize) -> Option<WordFault>
    requires bytes { AreBytes bytes.now }
    requires some { 2 ≤ behind }
    requires within { behind + 2 ≤ length bytes.now }
    requires place { IsCrcPlace bytes.now behind }
    ensures { IfSome result (AreBadBytes bytes.now) }
{
    let (front, rest) = bytes.split_at(behind);
    let there = [rest[0], rest[1]];
    let right = crc_of(front);
    if there == right {
        None
    } else {
        Some(WordFault::Crc {
            behind,
            there,
            right,
        })
    }
}

/// The two bytes of the CRC of a message.
fn crc_of(message: &[u8]) -> [u8; 2]
    requires bytes { AreBytes message.now }
    requires some { 2 ≤ length message.now }
    ensures { IsCrc message.now (slice_index result 0) (slice_index result 1) }
{
    let register = run(message);
    [high(register), low(register)]
}

/// The register of the CRC after a message.
fn run(message: &[u8]) -> u16
    ensures { result ≡ running message.now }
{
    let mut register = 0xffff;
    for byte in message {
        register = feed(register, *byte);
    }
    register
}

/// The register after a byte.
fn feed(register: u16, byte: u8) -> u16
    ensures { result ≡ fed register byte }
{
    after_byte(high(register) ^ byte) ^ u16::from(low(register)) << 8
}

/// The first eight bits.
fn high(register: u16) -> u8
    ensures { result ≡ register / 256 }
{
    (register >> 8) as u8
}

/// The last eight bits.
fn low(register: u16) -> u8
    ensures { result ≡ register % 256 }
{
    (register & 255) as u8
}

/// The register, 0 before, after a byte.
fn after_byte(byte: u8) -> u16
    ensures { result ≡ after_zeros 0 byte }
{
    CRC16_TABLE[usize::from(byte)]
}
