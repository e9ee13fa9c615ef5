//! The CRC of packets as one running register.
ghost use Rattle.std.specs.Prelude.{◌≡◌, ◌<◌, ◌/◌, ◌%◌, [], ◌∷◌};
ghost use Rattle.rio_packets.specs.Register.{fed, fed_all};
ghost use Rattle.rio_packets.specs.Tables.{after_zeros};

use crate::tables::{
    AFTER_FIVE_ZEROS, AFTER_FOUR_ZEROS, AFTER_ONE_ZERO, AFTER_SEVEN_ZEROS, AFTER_SIX_ZEROS,
    AFTER_THREE_ZEROS, AFTER_TWO_ZEROS, CRC16_TABLE,
};

/// The register before the first byte.
pub(crate) const PRESET: u16 = 0xffff;

/// The register after the bytes. Two bytes use up its sixteen bits, so that of eight bytes each has
/// a table of its own.
pub(crate) fn run(register: u16, bytes: &[u8]) -> u16
    ensures { result ≡ fed_all register bytes.now }
{
    let mut after = register;
    let mut rest = bytes;
    while let [a, b, c, d, e, f, g, h, behind @ ..] = rest {
        after = feed_eight(after, *a, *b, *c, *d, *e, *f, *g, *h);
        rest = behind;
    }
    run_few(after, rest)
}

/// The register after the bytes, four at once and the others one after another.
fn run_few(register: u16, bytes: &[u8]) -> u16
    ensures { result ≡ fed_all register bytes.now }
{
    match bytes {
        [a, b, c, d, behind @ ..] => run_each(feed_four(register, *a, *b, *c, *d), behind),
        _ => run_each(register, bytes),
    }
}

/// The register after the bytes, one after another.
fn run_each(register: u16, bytes: &[u8]) -> u16
    ensures { result ≡ fed_all register bytes.now }
{
    let mut after = register;
    for byte in bytes {
        after = feed(after, *byte);
    }
    after
}

/// The register after eight bytes.
fn feed_eight(register: u16, a: u8, b: u8, c: u8, d: u8, e: u8, f: u8, g: u8, h: u8) -> u16
    ensures { result ≡ fed_all register (a ∷ b ∷ c ∷ d ∷ e ∷ f ∷ g ∷ h ∷ []) }
{
    feed_four(0, e, f, g, h) ^ feed_ahead(register, a, b, c, d)
}

/// The register after four bytes and four zero bytes. What waits for the register is added last.
fn feed_ahead(register: u16, a: u8, b: u8, c: u8, d: u8) -> u16
    ensures { result ≡ fed_all register (a ∷ b ∷ c ∷ d ∷ 0 ∷ 0 ∷ 0 ∷ 0 ∷ []) }
{
    after_four_zeros(d)
        ^ after_five_zeros(c)
        ^ after_six_zeros(low(register) ^ b)
        ^ after_seven_zeros(high(register) ^ a)
}

/// The register after four bytes.
fn feed_four(register: u16, a: u8, b: u8, c: u8, d: u8) -> u16
    ensures { result ≡ fed_all register (a ∷ b ∷ c ∷ d ∷ []) }
{
    after_byte(d)
        ^ after_one_zero(c)
        ^ after_two_zeros(low(register) ^ b)
        ^ after_three_zeros(high(register) ^ a)
}

/// The register after a byte.
pub(crate) fn feed(register: u16, byte: u8) -> u16
    ensures { result ≡ fed register byte }
{
    after_byte(high(register) ^ byte) ^ u16::from(low(register)) << 8
}

/// The first eight bits.
fn high(register: u16) -> u8
    ensures { result ≡ register / 256 }
{
    (register >> 8) as u8
}

/// The last eight bits.
fn low(register: u16) -> u8
    ensures { result ≡ register % 256 }
{
    (register & 255) as u8
}

/// The register, 0 before, after a byte.
fn after_byte(byte: u8) -> u16
    ensures { result ≡ after_zeros 0 byte }
{
    CRC16_TABLE[usize::from(byte)]
}

/// The register, 0 before, after a byte and a zero byte.
fn after_one_zero(byte: u8) -> u16
    ensures { result ≡ after_zeros 1 byte }
{
    AFTER_ONE_ZERO[usize::from(byte)]
}

/// The register, 0 before, after a byte and two zero bytes.
fn after_two_zeros(byte: u8) -> u16
    ensures { result ≡ after_zeros 2 byte }
{
    AFTER_TWO_ZEROS[usize::from(byte)]
}

/// The register, 0 before, after a byte and three zero bytes.
fn after_three_zeros(byte: u8) -> u16
    ensures { result ≡ after_zeros 3 byte }
{
    AFTER_THREE_ZEROS[usize::from(byte)]
}

/// The register, 0 before, after a byte and four zero bytes.
fn after_four_zeros(byte: u8) -> u16
    ensures { result ≡ after_zeros 4 byte }
{
    AFTER_FOUR_ZEROS[usize::from(byte)]
}

/// The register, 0 before, after a byte and five zero bytes.
fn after_five_zeros(byte: u8) -> u16
    ensures { result ≡ after_zeros 5 byte }
{
    AFTER_FIVE_ZEROS[usize::from(byte)]
}

/// The register, 0 before, after a byte and six zero bytes.
fn after_six_zeros(byte: u8) -> u16
    ensures { result ≡ after_zeros 6 byte }
{
    AFTER_SIX_ZEROS[usize::from(byte)]
}

/// The register, 0 before, after a byte and seven zero bytes.
fn after_seven_zeros(byte: u8) -> u16
    ensures { result ≡ after_zeros 7 byte }
{
    AFTER_SEVEN_ZEROS[usize::from(byte)]
}
