//! The input by lines: the set-up lines, and the lines behind them.

ghost use Rattle.std.specs.Prelude.{◌≡◌, ◌≤◌, ◌<◌, ◌+◌, ◌++◌, [], ◌∷◌, length, option_map, IfSome, MatchOption};
ghost use Rattle.script_input.specs.Inputs.{texts_of, set_up_texts, texts_behind, set_up_bytes};

use fabric_script::Refusal;

/// The line between the set-up lines and the others.
const BETWEEN: &[u8] = b"---";

/// The reason if there is no such line.
const NOT_PARTED: u8 = 15;

/// The bytes of the set-up lines, those behind a line `---` if there is one, and how many set-up
/// lines there are. Where there is no such line, all lines are set-up lines.
pub fn split_input(bytes: &[u8]) -> (&[u8], Option<&[u8]>, u32)
    requires { length bytes.now ≤ 16777216 }
    ensures set_up { result.0.now ≡ set_up_bytes bytes.now }
    ensures behind { option_map (λ behind. texts_of behind.now) result.1
        ≡ texts_behind (texts_of bytes.now) }
    ensures lines { result.2 ≡ length (set_up_texts (texts_of bytes.now)) }
    ensures few { IfSome result.1 (λ behind. result.2 + length behind.now < length bytes.now) }
    ensures few_lines { result.2 ≤ length bytes.now }
    ensures short { length result.0.now ≤ length bytes.now }
{
    let mut left = bytes;
    let mut lines: u32 = 0;
    while let Some((text, behind)) = next_line(left) {
        if text == BETWEEN {
            return (&bytes[..bytes.len() - left.len()], Some(behind), lines);
        }
        left = behind;
        lines += 1;
    }
    (bytes, None, lines)
}

/// How many lines the bytes have. The last may lack its line feed.
pub fn count_lines(bytes: &[u8]) -> u32
    requires { length bytes.now ≤ 16777216 }
    ensures count { result ≡ length (texts_of bytes.now) }
    ensures few { result ≤ length bytes.now }
{
    let mut left = bytes;
    let mut lines: u32 = 0;
    while let Some((_, behind)) = next_line(left) {
        left = behind;
        lines += 1;
    }
    lines
}

/// The first line without its line feed, and what stands behind it; None if there is no line.
pub fn next_line(bytes: &[u8]) -> Option<(&[u8], &[u8])>
    ensures texts { MatchOption result (bytes.now ≡ [])
        (λ found. texts_of bytes.now ≡ found.0.now ∷ texts_of found.1.now) }
    ensures shorter { IfSome result (λ found.
        length found.0.now + length found.1.now ≤ length bytes.now) }
    ensures less { IfSome result (λ found. length found.1.now < length bytes.now) }
    ensures joined { IfSome result (λ found. 0 < length found.1.now
        → bytes.now ≡ found.0.now ++ 10 ∷ found.1.now) }
{
    for (i, byte) in bytes.iter().enumerate() {
        if *byte == b'\n' {
            return Some((&bytes[..i], &bytes[i + 1..]));
        }
    }
    if bytes.is_empty() {
        None
    } else {
        Some((bytes, b""))
    }
}

/// The refusal of an input of so many lines, none of which is `---`: 15, at the line after the
/// last.
pub fn unparted(lines: u32) -> Refusal
    requires { lines < 4294967295 }
    ensures { result ≡ record { line = lines + 1; reason = 15 } }
{
    Refusal {
        line: lines + 1,
        reason: NOT_PARTED,
    }
}
