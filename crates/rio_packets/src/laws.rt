//! Laws of link forms, for whoever states something of packets.
ghost use Rattle.std.specs.Prelude.{◌≡◌, ◌<◌, ◌∷◌, ◌++◌, ◌↔◌, ℕ, Bool, List, Some, None, length, slice_index, replicate, false};
ghost use Rattle.crc_division.specs.Bits.{bits};
ghost use Rattle.crc_division.specs.Division.{remainder};
ghost use Rattle.rio_packets.specs.Crc16.{crc16_divisor};
ghost use Rattle.rio_packets.specs.Making.{most_rest};
ghost use Rattle.rio_packets.specs.LinkForm.{IsBadLength, IsBody, LinkForm, Passes};
ghost use Rattle.rio_packets.specs.Carries.{Carries, carried};
ghost use Rattle.rio_packets.specs.Fields.{HasFields, Lowered, body_of};

use crate::tables::CRC16_TABLE;

/// Each body has exactly one link form.
pub fn body_has_one_form()
    ensures exists { (body : List ℕ) → IsBody body → (bytes : List ℕ) × LinkForm body bytes }
    ensures one { (body p q : List ℕ) → LinkForm body p → LinkForm body q → p ≡ q }
{}

/// Bytes are a link form exactly where the running register passes them.
pub fn register_tells_forms()
    ensures passes { (bytes : List ℕ) → Passes bytes ↔ ((body : List ℕ) × LinkForm body bytes) }
{}

/// What bytes carry is decided, and is one ackID and one packet.
pub fn carried_is_exact()
    ensures found { (bytes : List ℕ) (ack : ℕ) (packet : List ℕ)
        → (carried bytes ≡ Some (ack, packet)) ↔ Carries bytes ack packet }
    ensures none { (bytes : List ℕ)
        → (carried bytes ≡ None) ↔ ((ack : ℕ) (packet : List ℕ) → Carries bytes ack packet → ⊥) }
{}

/// The fields of a packet that was built are those of its header.
pub fn built_fields_are_read_back()
    ensures { (prio ftype : ℕ) (large : Bool) (dest source : ℕ) (rest packet : List ℕ)
        → prio < 4 → ftype < 16 → LinkForm (body_of prio ftype large dest source rest) packet
        → HasFields prio ftype large dest source packet }
{}

/// A packet whose hop count is lowered is one packet.
pub fn lowered_is_one()
    ensures { (old new other : List ℕ) → Lowered old new → Lowered old other → new ≡ other }
{}

/// Each entry of the table is the remainder of the byte's bits and sixteen 0 bits.
pub fn crc16_table_has_remainders()
    ensures { (byte : ℕ) → byte < 256
        → bits 16 (slice_index CRC16_TABLE byte)
        ≡ remainder (bits 8 byte ++ replicate 16 false) crc16_divisor }
{}

/// [`max_rest`](crate::max_rest) bytes may follow the source ID of a packet, and of more none:
/// whatever the header, a rest of that length makes no body of bad length, and each longer one
/// does.
pub fn longest_rest()
    ensures fits { (prio ftype dest source : ℕ) (large : Bool) (rest : List ℕ)
        → length rest ≡ most_rest large
        → IsBadLength (body_of prio ftype large dest source rest) → ⊥ }
    ensures beyond { (prio ftype dest source : ℕ) (large : Bool) (rest : List ℕ)
        → most_rest large < length rest
        → IsBadLength (body_of prio ftype large dest source rest) }
{}

/// A packet is not taken for another one if one of its bytes is another: the bytes then pass no
/// CRC.
pub fn one_byte_is_seen()
    ensures { (front rest : List ℕ) (b d : ℕ) → Passes (front ++ b ∷ rest)
        → Passes (front ++ d ∷ rest) → b ≡ d }
{}
