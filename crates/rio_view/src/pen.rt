//! The lines of a value change dump: signals that are declared, and changes of their values.

use view_words::Text;

/// Writes changes at a moment. The moment is written before the first of them.
#[derive(Drop)]
pub(crate) struct Pen<'a> {
    out: &'a mut Text,
    time: u64,
    written: &'a mut Option<u64>,
}

impl<'a> Pen<'a> {
    /// A pen at a moment, behind the last one that was written.
    pub(crate) fn new(out: &'a mut Text, time: u64, written: &'a mut Option<u64>) -> Pen<'a> {
        Pen { out, time, written }
    }
}

impl Pen<'_> {
    /// The moment, unless it was written.
    fn put_time(&mut self) {
        if *self.written != Some(self.time) {
            self.out.put(b"#");
            self.out.put_number(self.time);
            self.out.put(b"\n");
            *self.written = Some(self.time);
        }
    }

    /// The name of a signal in the dump: its number in digits of 94 signs.
    fn put_id(&mut self, signal: u32) {
        put_id(self.out, signal);
        self.out.put(b"\n");
    }

    /// A signal of one bit has this value.
    pub(crate) fn put_bit(&mut self, signal: u32, value: u8) {
        self.put_time();
        self.out.put(&[value]);
        self.put_id(signal);
    }

    /// A signal of eight bits has this value, or none.
    pub(crate) fn put_byte(&mut self, signal: u32, value: Option<u8>) {
        self.put_time();
        self.out.put(b"b");
        match value {
            Some(byte) => {
                for place in [7u8, 6, 5, 4, 3, 2, 1, 0] {
                    self.out
                        .put(if byte >> place & 1 == 1 { b"1" } else { b"0" });
                }
            }
            None => self.out.put(b"z"),
        }
        self.out.put(b" ");
        self.put_id(signal);
    }

    /// A signal of a number has this value.
    pub(crate) fn put_number(&mut self, signal: u32, value: u32) {
        self.put_time();
        self.out.put(b"b");
        let leading = value.leading_zeros().min(31);
        for place in 0..32 - leading {
            let bit = value >> (31 - leading - place) & 1;
            self.out.put(if bit == 1 { b"1" } else { b"0" });
        }
        self.out.put(b" ");
        self.put_id(signal);
    }

    /// A signal of words has this value.
    pub(crate) fn put_words(&mut self, signal: u32, first: &[u8], second: &[u8]) {
        self.put_time();
        self.out.put(b"s");
        self.out.put(first);
        if !second.is_empty() {
            self.out.put(b"+");
            self.out.put(second);
        }
        self.out.put(b" ");
        self.put_id(signal);
    }
}

/// Puts the name of a signal: its number in digits of 94 signs.
fn put_id(out: &mut Text, signal: u32) {
    let mut rest = signal;
    for _ in 0..5 {
        out.put(&[b'!' + (rest % 94) as u8]);
        rest /= 94;
        if rest == 0 {
            return;
        }
    }
}

/// Declares a signal.
pub(crate) fn declare(out: &mut Text, kind: &[u8], signal: u32, name: &[u8]) {
    out.put(b"$var ");
    out.put(kind);
    out.put(b" ");
    put_id(out, signal);
    out.put(b" ");
    out.put(name);
    out.put(b" $end\n");
}
