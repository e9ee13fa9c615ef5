//! A packet that is read from the bytes of a link as they come.
ghost use Rattle.std.specs.Prelude.{◌≡◌, ◌+◌, ◌<◌, ◌≤◌, ◌==◌, [], ◌∷◌, ◌++◌, length, take, Ok, Err, IfOk, MatchResult};
ghost use Rattle.arrayvec.specs.ArrayVec.{array_vec_len};
ghost use Rattle.rio_packets.specs.Building.{as_they_came, IsBuilding};
ghost use Rattle.rio_packets.specs.Carries.{checked, register_passes};
ghost use Rattle.rio_packets.specs.LinkForm.{Passes};
ghost use Rattle.rio_packets.specs.Register.{running};

use crate::cause::Cause;
use crate::crc::{PRESET, run};
use crate::packet::{MAX_BYTES, Packet, append, copied};
use arrayvec::ArrayVec;
use std::marker::Model;

/// How many bytes a link form has at least.
const MIN_BYTES: usize = 8;

/// Where the first CRC of a long link form ends.
const FIRST_CRC_END: usize = 82;

/// From this length on, a link form has a CRC after 80 bytes.
const LONG_FROM: usize = 84;

/// The bytes of a packet as they come from a link, at most 276, with the running register of its
/// CRC, so that no byte is read again when the packet ends (RapidIO Interconnect Specification 1.3,
/// Part 6, packet format and packet CRC). Contracts see the list of the bytes.
#[derive(Debug, Drop)]
pub struct Building {
    /// The bytes, of which the first has its first six bits set to 0.
    form: ArrayVec<u8, MAX_BYTES>,
    /// The first byte as it came.
    first: u8,
    /// The register after all bytes.
    register: u16,
    /// The register after the first 82 bytes.
    middle: u16,
}

impl Model for Building {
    ghost use Rattle.std.specs.Prelude.{ℕ, List};
    ghost use Rattle.rio_packets.specs.Building.{as_they_came, IsBuilding};

    ghost Value = { List ℕ };

    ghost view = { λ b. as_they_came b.first b.form.items };

    ghost invariant = { λ b. IsBuilding b.first b.form.items b.register b.middle };
}

impl Building {
    /// No byte has come.
    pub fn new() -> Building
        ensures { result ≡ [] }
    {
        Building {
            form: ArrayVec::new(),
            first: 0,
            register: PRESET,
            middle: PRESET,
        }
    }

    /// How many bytes have come, 0 to 276.
    pub fn len(&self) -> u16
        ensures value { result ≡ length self.now }
        ensures fits { result ≤ 276 }
    {
        self.form.len() as u16
    }

    /// Whether no byte has come.
    pub fn is_empty(&self) -> bool
        ensures { result ≡ (length self.now == 0) }
    {
        self.form.is_empty()
    }

    /// Whether no byte more fits, since 276 have come.
    pub fn is_full(&self) -> bool
        ensures value { result ≡ (length self.now == 276) }
        ensures fits { length self.now ≤ 276 }
    {
        self.form.is_full()
    }

    /// Takes the next byte.
    pub fn push(&mut self, byte: u8)
        requires { length self.old < 276 }
        ensures { self.new ≡ self.old ++ byte ∷ [] }
    {
        self.push_all(&[byte]);
    }

    /// Takes the next bytes.
    pub fn push_all(&mut self, bytes: &[u8])
        requires { length self.old + length bytes.now ≤ 276 }
        ensures { self.new ≡ self.old ++ bytes.now }
    {
        match bytes {
            [first, rest @ ..] if self.form.is_empty() => {
                self.begin(*first);
                self.extend(rest);
            }
            _ => self.extend(bytes),
        }
    }

    /// Takes the first byte.
    fn begin(&mut self, first: u8)
        requires { self.old ≡ [] }
        ensures { self.new ≡ first ∷ [] }
    {
        self.first = first;
        self.form.push(first & 3);
        self.register = run(PRESET, &[first & 3]);
        self.middle = self.register;
    }

    /// Takes bytes behind the first.
    fn extend(&mut self, more: &[u8])
        requires room { length self.old + length more.now ≤ 276 }
        requires behind { 0 < length self.old + length more.now → 0 < length self.old }
        ensures { self.new ≡ self.old ++ more.now }
    {
        let before_middle = FIRST_CRC_END.saturating_sub(self.form.len());
        let (front, back) = more.split_at(more.len().min(before_middle));
        let register = run(self.register, front);
        if before_middle > 0 {
            self.middle = register;
        }
        self.register = run(register, back);
        append(&mut self.form, more);
    }

    /// Forgets all bytes.
    pub fn clear(&mut self)
        ensures { self.new ≡ [] }
    {
        self.form.clear();
        self.register = PRESET;
        self.middle = PRESET;
    }

    /// The same bytes once more.
    pub fn copy(&self) -> Building
        ensures { result ≡ self.now }
    {
        Building {
            form: copied(self.form.as_slice()),
            first: self.first,
            register: self.register,
            middle: self.middle,
        }
    }

    /// The ackID and the bytes of the packet that the bytes carry, with ackID 0, lent; the errors
    /// are those of [`check`](crate::check).
    pub fn carried(&self) -> Result<(u8, &[u8]), Cause>
        ensures checked { MatchResult result (λ found. checked self.now ≡ Ok (found.0, found.1.now))
            (λ cause. checked self.now ≡ Err cause) }
        ensures passes { IfOk result (λ found. Passes found.1.now) }
        ensures fits { length self.now ≤ 276 }
    {
        read(self.first, self.form.as_slice(), self.register, self.middle)
    }

    /// What [`check`](crate::check) answers of the bytes.
    pub fn finish(self) -> Result<(u8, Packet), Cause>
        ensures { result ≡ checked self }
    {
        match self.carried() {
            Ok((ack, form)) => Ok((ack, Packet::from_form(form))),
            Err(cause) => Err(cause),
        }
    }
}

/// What is read in bytes, the first as it came and the others behind their first six bits, by the
/// registers after them.
fn read(first: u8, form: &[u8], register: u16, middle: u16) -> Result<(u8, &[u8]), Cause>
    requires is { IsBuilding first form.now register middle }
    requires most { length form.now ≤ 276 }
    ensures checked { MatchResult result
        (λ found. checked (as_they_came first form.now) ≡ Ok (found.0, found.1.now))
        (λ cause. checked (as_they_came first form.now) ≡ Err cause) }
    ensures passes { IfOk result (λ found. Passes found.1.now) }
{
    if form.len() < MIN_BYTES {
        return Err(Cause::General);
    }
    if !is_link_form(form, register, middle) {
        return Err(Cause::BadPacket);
    }
    Ok((first >> 3, form))
}

/// Whether bytes are a link form, by the register after them and that after the first 82.
fn is_link_form(form: &[u8], register: u16, middle: u16) -> bool
    requires some { 0 < length form.now }
    requires register { register ≡ running form.now }
    requires middle { middle ≡ running (take 82 form.now) }
    ensures { result ≡ register_passes form.now }
{
    form.len() % 4 == 0 && form[0] < 4 && register == 0 && (form.len() < LONG_FROM || middle == 0)
}
