//! What characters say, told one event after another.
ghost use Rattle.std.specs.Prelude.{◌≡◌, IsSome};
ghost use Rattle.rio_symbols.specs.Fields.{Fields};

use rio_chars::Char;
use rio_framer::{Framer, Told};
use rio_packets::{Cause, Packet};
use rio_symbols::Symbol;
use std::alloc::AllocError;

/// The reading of a wire at one of its ends.
#[derive(Drop)]
pub struct Ear(pub(crate) Framer);

impl Default for Ear {
    fn default() -> Self {
        Ear(Framer::new())
    }
}

impl Ear {
    /// Whether no packet or symbol is in progress.
    pub fn at_rest(&self) -> bool {
        self.0.at_rest()
    }
}

/// What characters say.
#[derive(Drop)]
pub enum Heard {
    /// Nothing yet.
    Nothing,
    /// A control symbol.
    Symbol(Symbol),
    /// A packet with its ackID, and the symbol that ended it.
    Packet(u8, Packet, Symbol),
    /// What is no packet, and why, and the symbol that ended it.
    Broken(Cause, Symbol),
    /// What is neither a symbol nor a packet, and why.
    Bad(Cause),
}

/// Who is told what characters say.
pub trait Hear {
    /// These characters come, of which the last completes what is heard.
    fn hear(&mut self, chars: &[Char], heard: &Heard) -> Result<(), AllocError>;
}

/// Tells what characters say.
pub fn listen<H: Hear>(ear: &mut Ear, chars: &[Char], to: &mut H) -> Result<(), AllocError> {
    let mut left = chars;
    while !left.is_empty() {
        let (count, told) = ear.0.read_run(left);
        let (run, rest) = left.split_at(count);
        left = rest;
        to.hear(run, &heard_of(&ear.0, told))?;
    }
    Ok(())
}

/// What the last characters said.
fn heard_of(framer: &Framer, told: Told) -> Heard
    requires { (symbol : Fields) → told ≡ Told.Ends symbol → IsSome framer.now.ended }
{
    match told {
        Told::Nothing => Heard::Nothing,
        Told::Ctl(symbol) => Heard::Symbol(symbol),
        Told::Bad(cause) => Heard::Bad(cause),
        Told::Ends(symbol) => match framer.ended() {
            Ok((ack, form)) => Heard::Packet(ack, Packet::from_form(form), symbol),
            Err(cause) => Heard::Broken(cause, symbol),
        },
    }
}
