//! Packets made from their fields.
ghost use Rattle.std.specs.Prelude.{◌≡◌, ◌+◌, ◌%◌, ◌<◌, ◌≤◌, ◌↔◌, ◌++◌, [], false, length, IsErr, IfOk, if◌then◌else◌};
ghost use Rattle.arrayvec.specs.ArrayVec.{array_vec_len};
ghost use Rattle.rio_packets.specs.LinkForm.{LinkForm, IsBadLength, padded};
ghost use Rattle.rio_packets.specs.Fields.{body_of, types_of};
ghost use Rattle.rio_packets.specs.Making.{most_rest, with_crc, with_more};
ghost use Rattle.rio_packets.specs.Register.{running};

use crate::crc::{PRESET, run};
use crate::packet::{MAX_BYTES, Packet, append};
use arrayvec::ArrayVec;

/// The most bytes that may follow the source ID of a packet, with 16-bit IDs or with 8-bit ones.
pub const fn max_rest(large: bool) -> usize
    ensures { result ≡ most_rest large }
{
    if large { 266 } else { 268 }
}

/// How many bytes of a body come before the first CRC.
const FIRST_PART: usize = 80;

/// The fields before the data of a packet
/// (RapidIO Interconnect Specification 1.3, Part 6, packet header; Part 3, IDs).
#[derive(Clone, Copy, Debug, PartialEq, Eq)]
pub struct Header {
    /// The priority, 0 to 3, of which 3 is the highest.
    pub prio: u8,
    /// The format type, 0 to 15; 8 is maintenance.
    pub ftype: u8,
    /// The destination ID, below 256 unless the IDs have 16 bits.
    pub dest: u16,
    /// The source ID, below 256 unless the IDs have 16 bits.
    pub source: u16,
    /// Whether the IDs have 16 bits, which is transport type 1, or 8 bits, which is 0.
    pub large: bool,
}

/// The body would have an odd length, or more than 272 bytes.
#[derive(Clone, Copy, Debug, PartialEq, Eq)]
pub struct BadLength;

/// The packet whose body is a zero byte, priority, transport type and format type in a byte, the
/// two IDs, and `rest`. `BadLength` comes exactly if this body has an odd length or more than 272
/// bytes.
pub fn build(header: &Header, rest: &[u8]) -> Result<Packet, BadLength>
    requires prio { header.now.prio < 4 }
    requires ftype { header.now.ftype < 16 }
    requires dest { header.now.large ≡ false → header.now.dest < 256 }
    requires source { header.now.large ≡ false → header.now.source < 256 }
    ensures ok { IfOk result (λ p. LinkForm (body_of header.now.prio header.now.ftype
        header.now.large header.now.dest header.now.source rest.now) p) }
    ensures bad_length { IsErr result ↔ IsBadLength (body_of header.now.prio header.now.ftype
        header.now.large header.now.dest header.now.source rest.now) }
{
    if rest.len() % 2 != 0 || rest.len() > max_rest(header.large) {
        return Err(BadLength);
    }
    Ok(made_of(header, rest))
}

/// The packet of a body whose length is good.
fn made_of(header: &Header, rest: &[u8]) -> Packet
    requires prio { header.now.prio < 4 }
    requires ftype { header.now.ftype < 16 }
    requires dest { header.now.large ≡ false → header.now.dest < 256 }
    requires source { header.now.large ≡ false → header.now.source < 256 }
    requires even { length rest.now % 2 ≡ 0 }
    requires most { length rest.now ≤ most_rest header.now.large }
    ensures { LinkForm (body_of header.now.prio header.now.ftype
        header.now.large header.now.dest header.now.source rest.now) result }
{
    let mut draft = header.draft();
    let (front, back) = rest.split_at(rest.len().min(FIRST_PART - draft.bytes.len()));
    draft.push(front);
    draft.push_crc();
    draft.push_more(back);
    draft.pad();
    Packet { form: draft.bytes }
}

/// The link form of the body of four zero bytes.
impl Default for Packet {
    ghost use Rattle.std.specs.Prelude.{◌∷◌, []};
    ghost use Rattle.rio_packets.specs.LinkForm.{LinkForm};

    ghost is_default = { λ p. LinkForm (0 ∷ 0 ∷ 0 ∷ 0 ∷ []) p };

    fn default() -> Self {
        let zeros = Header {
            prio: 0,
            ftype: 0,
            dest: 0,
            source: 0,
            large: false,
        };
        made_of(&zeros, &[])
    }
}

impl Header {
    /// The bytes before the data.
    fn draft(&self) -> Draft
        requires prio { self.now.prio < 4 }
        requires ftype { self.now.ftype < 16 }
        requires dest { self.now.large ≡ false → self.now.dest < 256 }
        requires source { self.now.large ≡ false → self.now.source < 256 }
        ensures items { result.bytes.items
            ≡ body_of self.now.prio self.now.ftype self.now.large self.now.dest self.now.source [] }
        ensures len { array_vec_len result.bytes ≡ (if self.now.large then 6 else 4) }
        ensures dest { self.now.dest < 0x10000 }
        ensures source { self.now.source < 0x10000 }
    {
        let mut draft = Draft::new();
        draft.push(&[0, self.types()]);
        if self.large {
            draft.push(&self.dest.to_be_bytes());
            draft.push(&self.source.to_be_bytes());
        } else {
            draft.push(&[self.dest as u8, self.source as u8]);
        }
        draft
    }

    /// Priority, transport type and format type in a byte.
    fn types(&self) -> u8
        requires prio { self.now.prio < 4 }
        requires ftype { self.now.ftype < 16 }
        ensures { result ≡ types_of self.now.large self.now.prio self.now.ftype }
    {
        let large = if self.large { 16 } else { 0 };
        64 * self.prio + large + self.ftype
    }
}

/// A link form in the making, with the register after what stands so far.
#[derive(Drop)]
struct Draft {
    bytes: ArrayVec<u8, MAX_BYTES>,
    register: u16,
    ghost runs: { register ≡ running bytes.items },
}

impl Draft {
    /// Nothing yet, with the preset register.
    fn new() -> Draft
        ensures items { result.bytes.items ≡ [] }
        ensures len { array_vec_len result.bytes ≡ 0 }
    {
        Draft {
            bytes: ArrayVec::new(),
            register: PRESET,
        }
    }

    /// Bytes behind what stands.
    fn push(&mut self, more: &[u8])
        requires { array_vec_len self.old.bytes + length more.now ≤ 276 }
        ensures items { self.new.bytes.items ≡ self.old.bytes.items ++ more.now }
        ensures len { array_vec_len self.new.bytes
            ≡ array_vec_len self.old.bytes + length more.now }
    {
        append(&mut self.bytes, more);
        self.register = run(self.register, more);
    }

    /// The CRC of what stands, behind it.
    fn push_crc(&mut self)
        requires { array_vec_len self.old.bytes ≤ 274 }
        ensures items { self.new.bytes.items ≡ with_crc self.old.bytes.items }
        ensures len { array_vec_len self.new.bytes ≡ array_vec_len self.old.bytes + 2 }
    {
        let register = self.register;
        self.push(&register.to_be_bytes());
    }

    /// What follows the first CRC, and a CRC of it all.
    fn push_more(&mut self, more: &[u8])
        requires { array_vec_len self.old.bytes + length more.now ≤ 274 }
        ensures items { self.new.bytes.items ≡ with_more self.old.bytes.items more.now }
        ensures len { array_vec_len self.new.bytes ≤ array_vec_len self.old.bytes + length more.now
            + 2 }
        ensures parity { array_vec_len self.new.bytes % 2
            ≡ (array_vec_len self.old.bytes + length more.now) % 2 }
    {
        if !more.is_empty() {
            self.push(more);
            self.push_crc();
        }
    }

    /// Two zero bytes if the length is no multiple of four.
    fn pad(&mut self)
        requires even { array_vec_len self.old.bytes % 2 ≡ 0 }
        requires room { array_vec_len self.old.bytes ≤ 276 }
        ensures { self.new.bytes.items ≡ padded self.old.bytes.items }
    {
        if self.bytes.len() % 4 != 0 {
            self.push(&[0, 0]);
        }
    }
}
