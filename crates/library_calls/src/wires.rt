//! Characters as numbers.
ghost use Rattle.std.specs.Prelude.{◌≡◌, ◌≤◌, length};
ghost use Rattle.library_calls.specs.Wires.{wire_char as wire_char_of, char_wire as char_wire_of, char_wires};
ghost use Rattle.library_calls.specs.Rooms.{laid_over};

use rio_chars::Char;

/// The character of a number.
pub fn wire_char(number: u16) -> Char
    ensures { result ≡ wire_char_of number }
{
    if number < 256 {
        Char::Data(number as u8)
    } else if number < 512 {
        Char::Special((number - 256) as u8)
    } else {
        Char::Invalid
    }
}

/// The number of a character.
pub fn char_wire(c: Char) -> u16
    ensures { result ≡ char_wire_of c }
{
    match c {
        Char::Data(byte) => u16::from(byte),
        Char::Special(byte) => 256 + u16::from(byte),
        Char::Invalid => 512,
    }
}

/// Writes the numbers of characters over the front of a room, and answers how many they are.
pub(crate) fn put_wires(chars: &[Char], room: &mut [u16]) -> usize
    requires { length chars.now ≤ length room.old }
    ensures count { result ≡ length chars.now }
    ensures room { room.new ≡ laid_over (char_wires chars.now) room.old }
{
    let count = chars.len();
    for i in 0..count {
        room[i] = char_wire(chars[i]);
    }
    count
}
