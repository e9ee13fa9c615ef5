//! Places and small numbers in decimal, by tables: most lines of `decode` are little else.
ghost use Rattle.std.specs.Prelude.{◌≡◌, ◌≤◌, ◌<◌, ◌+◌, ◌*◌, ◌/◌, ◌%◌, ◌∷◌, ◌++◌, [], codes, take};
ghost use Rattle.std.specs.Fmt.{decimal};
ghost use Rattle.host_enumerate.specs.MapTexts.{spaced};
ghost use Rattle.rio_chars.specs.Written.{Writes};

use rio_chars::{Outbox, Sink};

/// The two digits of each number below 100, the first in the low byte.
const DIGIT_PAIRS: [u16; 100] = [
    0x3030, 0x3130, 0x3230, 0x3330, 0x3430, 0x3530, 0x3630, 0x3730, 0x3830, 0x3930, 0x3031, 0x3131,
    0x3231, 0x3331, 0x3431, 0x3531, 0x3631, 0x3731, 0x3831, 0x3931, 0x3032, 0x3132, 0x3232, 0x3332,
    0x3432, 0x3532, 0x3632, 0x3732, 0x3832, 0x3932, 0x3033, 0x3133, 0x3233, 0x3333, 0x3433, 0x3533,
    0x3633, 0x3733, 0x3833, 0x3933, 0x3034, 0x3134, 0x3234, 0x3334, 0x3434, 0x3534, 0x3634, 0x3734,
    0x3834, 0x3934, 0x3035, 0x3135, 0x3235, 0x3335, 0x3435, 0x3535, 0x3635, 0x3735, 0x3835, 0x3935,
    0x3036, 0x3136, 0x3236, 0x3336, 0x3436, 0x3536, 0x3636, 0x3736, 0x3836, 0x3936, 0x3037, 0x3137,
    0x3237, 0x3337, 0x3437, 0x3537, 0x3637, 0x3737, 0x3837, 0x3937, 0x3038, 0x3138, 0x3238, 0x3338,
    0x3438, 0x3538, 0x3638, 0x3738, 0x3838, 0x3938, 0x3039, 0x3139, 0x3239, 0x3339, 0x3439, 0x3539,
    0x3639, 0x3739, 0x3839, 0x3939,
];

/// Tells a place in decimal: two digits and four are told at once.
pub(crate) fn write_place<K: Sink>(outbox: &mut Outbox<K>, place: u32)
    ensures { Writes outbox.old outbox.new (decimal place) }
{
    if place < 10 {
        outbox.write_short(&[b'0' + place as u8, 0, 0, 0, 0, 0, 0, 0], 1);
        return;
    }
    if place < 100 {
        outbox.write_short(&two_digits(place as u8), 2);
        return;
    }
    if place < 10000 {
        write_place(outbox, place / 100);
        outbox.write_short(&two_digits((place % 100) as u8), 2);
        return;
    }
    write_place(outbox, place / 10000);
    outbox.write_short(&four_digits((place % 10000) as u16), 4);
}

/// Four digits of a number below 10,000.
#[inline(always)]
fn four_digits(number: u16) -> [u8; 8]
    requires { number < 10000 }
    ensures { take 4 result ≡ (48 + number / 100 / 10) ∷ (48 + number / 100 % 10)
        ∷ (48 + number % 100 / 10) ∷ (48 + number % 100 % 10) ∷ [] }
{
    let front = u64::from(DIGIT_PAIRS[usize::from(number / 100)]);
    let back = u64::from(DIGIT_PAIRS[usize::from(number % 100)]);
    (front + 65536 * back).to_le_bytes()
}

/// Two digits of a number below 100.
#[inline(always)]
fn two_digits(number: u8) -> [u8; 8]
    requires { number < 100 }
    ensures { take 2 result ≡ (48 + number / 10) ∷ (48 + number % 10) ∷ [] }
{
    u64::from(DIGIT_PAIRS[usize::from(number)]).to_le_bytes()
}

/// The text of each number below 100 behind a space, its first byte lowest.
const SPACED_NUMBERS: [u64; 100] = [
    0x003020, 0x003120, 0x003220, 0x003320, 0x003420, 0x003520, 0x003620, 0x003720, 0x003820,
    0x003920, 0x303120, 0x313120, 0x323120, 0x333120, 0x343120, 0x353120, 0x363120, 0x373120,
    0x383120, 0x393120, 0x303220, 0x313220, 0x323220, 0x333220, 0x343220, 0x353220, 0x363220,
    0x373220, 0x383220, 0x393220, 0x303320, 0x313320, 0x323320, 0x333320, 0x343320, 0x353320,
    0x363320, 0x373320, 0x383320, 0x393320, 0x303420, 0x313420, 0x323420, 0x333420, 0x343420,
    0x353420, 0x363420, 0x373420, 0x383420, 0x393420, 0x303520, 0x313520, 0x323520, 0x333520,
    0x343520, 0x353520, 0x363520, 0x373520, 0x383520, 0x393520, 0x303620, 0x313620, 0x323620,
    0x333620, 0x343620, 0x353620, 0x363620, 0x373620, 0x383620, 0x393620, 0x303720, 0x313720,
    0x323720, 0x333720, 0x343720, 0x353720, 0x363720, 0x373720, 0x383720, 0x393720, 0x303820,
    0x313820, 0x323820, 0x333820, 0x343820, 0x353820, 0x363820, 0x373820, 0x383820, 0x393820,
    0x303920, 0x313920, 0x323920, 0x333920, 0x343920, 0x353920, 0x363920, 0x373920, 0x383920,
    0x393920,
];

/// Tells a number behind a space.
#[inline(always)]
pub(crate) fn write_number<K: Sink>(outbox: &mut Outbox<K>, number: u8)
    ensures { Writes outbox.old outbox.new (spaced number) }
{
    let (text, count) = spaced_number(number);
    outbox.write_short(&text, count);
}

/// A number behind a space, and how many bytes that are.
#[inline(always)]
fn spaced_number(number: u8) -> ([u8; 8], usize)
    ensures count { result.1 ≤ 8 }
    ensures text { take result.1 result.0 ≡ spaced number }
{
    if number < 100 {
        let text = spaced_word(number).to_le_bytes();
        return (text, if number < 10 { 2 } else { 3 });
    }
    let last = b'0' + number % 10;
    let middle = b'0' + number / 10 % 10;
    ([b' ', b'0' + number / 100, middle, last, 0, 0, 0, 0], 4)
}

/// The text of a number below 100 behind a space, its first byte lowest.
#[inline(always)]
fn spaced_word(number: u8) -> u64
    requires { number < 100 }
    ensures digit { number < 10 → result ≡ 32 + 256 * (48 + number) }
    ensures digits { 10 ≤ number
        → result ≡ 32 + 256 * (48 + number / 10) + 65536 * (48 + number % 10) }
{
    SPACED_NUMBERS[usize::from(number)]
}

/// A digit and a number, each behind a space, and how many bytes that are.
#[inline(always)]
pub(crate) fn digit_and_number(digit: u8, number: u8) -> ([u8; 8], usize)
    requires digit { digit < 10 }
    requires number { number < 100 }
    ensures count { result.1 ≤ 8 }
    ensures text { take result.1 result.0 ≡ spaced digit ++ spaced number }
{
    let text = spaced_word(digit) + 65536 * spaced_word(number);
    (text.to_le_bytes(), if number < 10 { 4 } else { 5 })
}

/// A number and two digits, each behind a space, with the line feed behind them, and how many bytes
/// that are.
#[inline(always)]
pub(crate) fn number_and_digits(number: u8, first: u8, second: u8) -> ([u8; 8], usize)
    requires number { number < 100 }
    requires first { first < 10 }
    requires second { second < 10 }
    ensures count { result.1 ≤ 8 }
    ensures text { take result.1 result.0
        ≡ spaced number ++ spaced first ++ spaced second ++ codes "\n" }
{
    let digits = spaced_word(first) + 65536 * spaced_word(second) + LINE_FEED_BEHIND_FOUR;
    if number < 10 {
        return ((spaced_word(number) + 65536 * digits).to_le_bytes(), 7);
    }
    ((spaced_word(number) + 16777216 * digits).to_le_bytes(), 8)
}

/// A line feed as the fifth byte of a text.
const LINE_FEED_BEHIND_FOUR: u64 = 0x0a_0000_0000;
