//! The fields at the front of a packet.
ghost use Rattle.std.specs.Prelude.{◌≡◌, ◌+◌, ◌-◌, ◌*◌, ◌<◌, ◌≤◌, IsSomeAnd, take, if◌then◌else◌};
ghost use Rattle.rio_packets.specs.Fields.{prio_of, tt_of, ftype_of, dest_of, source_of, hop_of, hop_place, crc_place, has_maintenance_form, is_maintenance, is_maintenance_length, Lowered};
ghost use Rattle.rio_packets.specs.Hops.{closed, message_ended, lowered};
ghost use Rattle.arrayvec.specs.ArrayVec.{array_vec_len};

use crate::crc::{PRESET, run};
use crate::packet::{MAX_BYTES, Packet, append};
use arrayvec::ArrayVec;

impl Packet {
    /// The priority, 0 to 3, of which 3 is the highest
    /// (RapidIO Interconnect Specification 1.3, Part 6, packet priority).
    pub fn prio(&self) -> u8
        ensures value { result ≡ prio_of self.now }
        ensures range { result < 4 }
    {
        self.form[1] >> 6
    }

    /// The transport type, 0 to 3: 0 if the IDs have 8 bits, and 1 if they have 16
    /// (RapidIO Interconnect Specification 1.3, Part 3, transport type).
    pub fn tt(&self) -> u8
        ensures value { result ≡ tt_of self.now }
        ensures range { result < 4 }
    {
        self.form[1] >> 4 & 3
    }

    /// The format type, 0 to 15: 8 is maintenance
    /// (RapidIO Interconnect Specification 1.3, Part 1, packet formats).
    pub fn ftype(&self) -> u8
        ensures value { result ≡ ftype_of self.now }
        ensures range { result < 16 }
    {
        self.form[1] & 15
    }

    /// The destination ID, of 8 or 16 bits (RapidIO Interconnect Specification 1.3, Part 3, IDs).
    /// `None` comes exactly if the transport type is 2 or 3.
    pub fn dest(&self) -> Option<u16>
        ensures { result ≡ dest_of self.now }
    {
        match self.tt() {
            0 => Some(self.form[2].into()),
            1 => Some(half_word(self.form[2], self.form[3])),
            _ => None,
        }
    }

    /// The source ID, of 8 or 16 bits (RapidIO Interconnect Specification 1.3, Part 3, IDs). `None`
    /// comes exactly if the transport type is 2 or 3.
    pub fn source(&self) -> Option<u16>
        ensures { result ≡ source_of self.now }
    {
        match self.tt() {
            0 => Some(self.form[3].into()),
            1 => Some(half_word(self.form[4], self.form[5])),
            _ => None,
        }
    }

    /// The hop count, 0 to 255 (RapidIO Interconnect Specification 1.3, Part 1 and Part 3,
    /// maintenance packets). `None` comes exactly if it is no maintenance packet of a length
    /// that `docs/packets.md` names.
    pub fn hop(&self) -> Option<u8>
        ensures { result ≡ hop_of self.now }
    {
        if self.is_maintenance() {
            Some(self.form[self.hop_place()])
        } else {
            None
        }
    }

    /// Whether it is a maintenance packet: format type 8, transport type 0 or 1, and room for no or
    /// up to eight double-words of data.
    fn is_maintenance(&self) -> bool
        ensures { result ≡ is_maintenance self.now }
    {
        self.ftype() == 8 && self.has_maintenance_form()
    }

    /// Whether the bytes end as those of a maintenance packet of their transport type: with 16-bit
    /// IDs by two bytes that are 0.
    fn has_maintenance_form(&self) -> bool
        ensures { result ≡ has_maintenance_form self.now }
    {
        let length = self.form.len();
        match self.tt() {
            0 => is_maintenance_length(length),
            1 => {
                is_maintenance_length(length - 4)
                    && self.form[length - 2] == 0
                    && self.form[length - 1] == 0
            }
            _ => false,
        }
    }

    /// Where the hop count of a maintenance packet stands.
    fn hop_place(&self) -> usize
        ensures { result ≡ hop_place self.now }
    {
        if self.tt() == 1 { 8 } else { 6 }
    }

    /// Where the CRC of a maintenance packet stands: at the end, or with 16-bit IDs before the pad.
    fn crc_place(&self) -> usize
        ensures { result ≡ crc_place self.now }
    {
        self.form.len() - if self.tt() == 1 { 4 } else { 2 }
    }

    /// Lowers the hop count of a maintenance packet by one, and makes its CRC again. The pad of a
    /// packet with 16-bit IDs stays behind the CRC.
    pub fn lower_hop(&mut self)
        requires { IsSomeAnd (hop_of self.old) (λ hop. 1 ≤ hop) }
        ensures lowers { Lowered self.old self.new }
        ensures value { self.new ≡ lowered self.old }
    {
        let large = self.tt() == 1;
        let crc = self.crc_place();
        let hop = self.hop_place();
        self.form[hop] -= 1;
        renew_crc(&mut self.form, crc, large);
    }
}

/// The number of two bytes, the high byte first.
fn half_word(high: u8, low: u8) -> u16
    ensures { result ≡ 0x100 * high + low }
{
    u16::from_be_bytes([high, low])
}

/// Whether a maintenance packet has this length without the pad that 16-bit IDs bring.
fn is_maintenance_length(length: usize) -> bool
    ensures { result ≡ is_maintenance_length length }
{
    length % 8 == 4 && (12..=76).contains(&length)
}

/// Makes the CRC of a maintenance packet again, which stands at this place, and its pad.
fn renew_crc(form: &mut ArrayVec<u8, MAX_BYTES>, place: usize, large: bool)
    requires { place ≤ 272 }
    ensures { form.new.items ≡ message_ended large (take place form.old.items) }
{
    form.truncate(place);
    append_crc(form);
    if large {
        append(form, &[0, 0]);
    }
}

/// Appends the CRC of the bytes.
fn append_crc(bytes: &mut ArrayVec<u8, MAX_BYTES>)
    requires { array_vec_len bytes.old ≤ 274 }
    ensures items { bytes.new.items ≡ closed bytes.old.items }
    ensures len { array_vec_len bytes.new ≡ array_vec_len bytes.old + 2 }
{
    let register = run(PRESET, bytes.as_slice());
    append(bytes, &register.to_be_bytes());
}
