//! Packets read from the bytes of a link.
ghost use Rattle.std.specs.Prelude.{◌≡◌, ℕ, ◌<◌, ◌≤◌, ◌↔◌, ◌⊎◌, List, ◌∷◌, length, drop, None, Some, Err, IfOk, OnErr, IfErr};
ghost use Rattle.rio_packets.specs.Carries.{Carries, carried, checked};

use crate::building::Building;
use crate::cause::Cause;
use crate::packet::{MAX_BYTES, Packet, append};
use arrayvec::ArrayVec;

/// The ackID, which is the first five bits, and the packet that the bytes carry; the sixth bit is
/// ignored (RapidIO Interconnect Specification 1.3, Part 6, packet format and packet CRC; the sixth
/// bit by this project's profile). `General` comes exactly where there are fewer than 8 bytes or
/// more than 276, and `BadPacket` exactly where their number is in range and they carry no packet.
pub fn check(bytes: &[u8]) -> Result<(u8, Packet), Cause>
    ensures ok { IfOk result (λ found. Carries bytes.now found.0 found.1) }
    ensures found { IfOk result (λ found. carried bytes.now ≡ Some (found.0, found.1)) }
    ensures none { OnErr result (carried bytes.now ≡ None) }
    ensures checked { result ≡ checked bytes.now }
    ensures general { (result ≡ Err Cause.General)
        ↔ ((length bytes.now < 8) ⊎ (276 < length bytes.now)) }
    ensures bad_packet { (result ≡ Err Cause.BadPacket)
        ↔ ((8 ≤ length bytes.now) × (length bytes.now ≤ 276)
        × ((ack : ℕ) (packet : List ℕ) → Carries bytes.now ack packet → ⊥)) }
    ensures no_other { IfErr result (λ cause. (cause ≡ Cause.General) ⊎ (cause ≡ Cause.BadPacket)) }
{
    if bytes.len() > MAX_BYTES {
        return Err(Cause::General);
    }
    let mut building = Building::new();
    building.push_all(bytes);
    building.finish()
}

/// The bytes with another first byte.
fn with_first(bytes: &[u8], first: u8) -> ArrayVec<u8, MAX_BYTES>
    requires some { 0 < length bytes.now }
    requires most { length bytes.now ≤ 276 }
    ensures { result.items ≡ first ∷ drop 1 bytes.now }
{
    let mut changed = ArrayVec::new();
    changed.push(first);
    append(&mut changed, &bytes[1..]);
    changed
}

impl Packet {
    ghost use Rattle.std.specs.Prelude.{◌+◌, ◌*◌, slice_set, slice_index};

    /// The bytes, 8 to 276, with an ackID, below 32, in the first five bits
    /// (RapidIO Interconnect Specification 1.3, Part 6, packet format).
    pub fn with_ack(&self, ack: u8) -> ArrayVec<u8, MAX_BYTES>
        requires { ack < 32 }
        ensures bytes { result.items ≡ slice_set self.now 0 (8 * ack + slice_index self.now 0) }
        ensures carries { Carries result.items ack self.now }
        ensures carried { carried result.items ≡ Some (ack, self.now) }
    {
        let bytes = self.bytes();
        with_first(bytes, 8 * ack + bytes[0])
    }
}
