//! What characters say, behind the line that has them.

use crate::heard::{Ear, Hear, Heard, listen};
use crate::packets::{AskedRegisters, put_sent_packet};
use crate::symbols::{bad_words, put_symbol};
use crate::text::Text;
use rio_chars::Char;
use rio_packets::Cause;
use rio_symbols::Symbol;
use std::alloc::AllocError;

/// What characters say, behind a line.
pub(crate) fn put_chars(
    out: &mut Text,
    asked: &mut AskedRegisters,
    ear: Option<&mut Ear>,
    chars: &[Char],
) -> Result<(), AllocError> {
    let Some(ear) = ear else {
        return Ok(());
    };
    let mut behind = Behind {
        out,
        asked,
        parting: b"  # ",
    };
    listen(ear, chars, &mut behind)?;
    if !ear.at_rest() {
        behind.put_parting();
        behind.out.put(b"..");
    }
    Ok(())
}

/// The words behind a line, one after another.
#[derive(Drop)]
struct Behind<'a> {
    out: &'a mut Text,
    asked: &'a mut AskedRegisters,
    parting: &'static [u8],
}

impl Behind<'_> {
    /// What stands before the next of them.
    fn put_parting(&mut self) {
        self.out.put(self.parting);
        self.parting = b"; ";
    }

    /// The words of a symbol.
    fn put_symbol(&mut self, symbol: &Symbol) {
        self.put_parting();
        put_symbol(self.out, symbol);
    }

    /// The words of what is neither a packet nor a symbol.
    fn put_bad(&mut self, cause: Cause) {
        self.put_parting();
        self.out.put(bad_words(cause));
    }
}

impl Hear for Behind<'_> {
    fn hear(&mut self, _: &[Char], heard: &Heard) -> Result<(), AllocError> {
        match heard {
            Heard::Nothing => {}
            Heard::Symbol(symbol) => self.put_symbol(symbol),
            Heard::Packet(ack, packet, symbol) => {
                self.put_parting();
                put_sent_packet(self.out, self.asked, *ack, packet);
                self.out.put(b", CRC good");
                self.put_symbol(symbol);
            }
            Heard::Broken(cause, symbol) => {
                self.put_bad(*cause);
                self.put_symbol(symbol);
            }
            Heard::Bad(cause) => self.put_bad(*cause),
        }
        Ok(())
    }
}
