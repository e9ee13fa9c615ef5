//! Text in the making.

use std::alloc::Global;

/// The hexadecimal digits.
const DIGITS: &[u8; 16] = b"0123456789abcdef";

/// Bytes in the making. If memory is not given, what is put from then on is dropped: so a text can
/// be put to its end without a branch at each word, and `failed` be asked then.
#[derive(Drop)]
pub struct Text {
    bytes: Vec<u8>,
    failed: bool,
}

impl Text {
    /// No bytes. It takes no memory yet.
    pub fn new(alloc: Global) -> Text {
        Text {
            bytes: Vec::new(alloc),
            failed: false,
        }
    }

    /// Whether memory was not given.
    pub fn failed(&self) -> bool {
        self.failed
    }

    /// The bytes so far.
    pub fn as_slice(&self) -> &[u8] {
        self.bytes.as_slice()
    }

    /// How many bytes there are.
    pub fn len(&self) -> usize {
        self.bytes.len()
    }

    /// The bytes go.
    pub fn clear(&mut self) {
        self.bytes.clear();
    }

    /// Puts bytes.
    pub fn put(&mut self, bytes: &[u8]) {
        if self.failed || self.bytes.extend_from_slice(bytes).is_err() {
            self.failed = true;
        }
    }

    /// Puts another text. If memory was not given to that one, it was not given to this one.
    pub fn put_text(&mut self, text: &Text) {
        self.put(text.as_slice());
        self.lack(text);
    }

    /// Lacks what another text lacks, of which it puts a part or another spelling.
    pub fn lack(&mut self, text: &Text) {
        self.failed = self.failed || text.failed;
    }

    /// Keeps the first bytes alone.
    pub fn truncate(&mut self, count: usize) {
        self.bytes.truncate(count);
    }

    /// Puts two hexadecimal digits for each byte.
    pub fn put_hex(&mut self, bytes: &[u8]) {
        for byte in bytes {
            let high = DIGITS[usize::from(*byte / 16)];
            let low = DIGITS[usize::from(*byte % 16)];
            self.put(&[high, low]);
        }
    }

    /// Puts a number in decimal digits.
    pub fn put_number(&mut self, number: u64) {
        self.put_number_right(0, number);
    }

    /// Puts spaces and then a number in decimal digits, so that both have a width, if the number is
    /// not longer.
    pub fn put_number_right(&mut self, width: usize, number: u64) {
        let digits = digits_of(number);
        let begin = digits.iter().position(|digit| *digit != b'0').unwrap_or(19);
        self.put_right(width, digits.get(begin..).unwrap_or(b"0"));
    }

    /// Puts spaces and then a text, so that both have a width, if the text is not longer.
    fn put_right(&mut self, width: usize, text: &[u8]) {
        for _ in text.len()..width {
            self.put(b" ");
        }
        self.put(text);
    }

    /// Puts a text and then spaces, so that both have a width, if the text is not longer.
    pub fn put_left(&mut self, width: usize, text: &[u8]) {
        self.put(text);
        for _ in text.len()..width {
            self.put(b" ");
        }
    }
}

/// The decimal digits of a number, with zeros in front.
fn digits_of(number: u64) -> [u8; 20] {
    let mut digits = [b'0'; 20];
    let mut rest = number;
    for digit in digits.iter_mut().rev() {
        *digit = b'0' + (rest % 10) as u8;
        rest /= 10;
    }
    digits
}
