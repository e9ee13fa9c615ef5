//! The fields of a control symbol.
use std::marker::Model;

/// What a control symbol says: the fields of RapidIO Interconnect Specification 1.3, Part 6,
/// "Control symbols", without the CRC, which they determine. Each field fits its width.
#[derive(Clone, Copy, Debug, PartialEq, Eq)]
pub struct Symbol {
    /// stype0, three bits: what the symbol tells the sender of packets.
    pub s0: u8,
    /// parameter0, five bits.
    pub p0: u8,
    /// parameter1, five bits.
    pub p1: u8,
    /// stype1, three bits: what the symbol tells the receiver of packets.
    pub s1: u8,
    /// cmd, three bits: which request a link-request makes.
    pub cmd: u8,
}

impl Model for Symbol {
    ghost use Rattle.rio_symbols.specs.Fields.{Fields, InRange};

    ghost Value = { Fields };

    ghost view = { λ s. record { s0 = s.s0; p0 = s.p0; p1 = s.p1; s1 = s.s1; cmd = s.cmd } };

    ghost invariant = { λ s.
        InRange (record { s0 = s.s0; p0 = s.p0; p1 = s.p1; s1 = s.s1; cmd = s.cmd }) };

    ghost inverse = { λ f. record { s0 = f.s0; p0 = f.p0; p1 = f.p1; s1 = f.s1; cmd = f.cmd } };
}
