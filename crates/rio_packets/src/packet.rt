//! A packet in its link form.
ghost use Rattle.std.specs.Prelude.{◌≡◌, ◌+◌, ◌≤◌, ◌++◌, length};
ghost use Rattle.arrayvec.specs.ArrayVec.{array_vec_len};

use arrayvec::ArrayVec;
use std::marker::Model;

/// How many bytes a link form has at most (RapidIO Interconnect Specification 1.3, Part 6, packet
/// size).
pub const MAX_BYTES: usize = 276;

/// A packet as the bytes of its link form, 8 to 276 and a multiple of four, of which the first six
/// bits are 0 (RapidIO Interconnect Specification 1.3, Part 6, packet format and packet CRC). Two
/// packets are the same where their bytes are.
#[derive(Debug, Drop)]
pub struct Packet {
    pub(crate) form: ArrayVec<u8, MAX_BYTES>,
}

impl Model for Packet {
    ghost use Rattle.std.specs.Prelude.{ℕ, List};
    ghost use Rattle.rio_packets.specs.LinkForm.{Passes};

    ghost Value = { List ℕ };

    ghost view = { λ p. p.form.items };

    ghost invariant = { λ p. Passes p.form.items };

    ghost inverse = { λ bytes. record { form = record { items = bytes } } };
}

/// Packets are equal where their bytes are.
impl PartialEq for Packet {
    ghost use Rattle.std.specs.Prelude.{nat_eq};
    ghost use Rattle.std.specs.Cmp.{partial_equiv_from_equiv};
    ghost use Rattle.std.specs.Cmp.Lexicographic.{pointwise, nat_list_eq_equiv};

    ghost eq = { λ x y. pointwise nat_eq x y };

    ghost laws = { partial_equiv_from_equiv nat_list_eq_equiv };

    fn eq(&self, other: &Self) -> bool {
        self.form.as_slice() == other.form.as_slice()
    }
}

impl Eq for Packet {
    ghost use Rattle.std.specs.Cmp.Lexicographic.{nat_list_eq_equiv};

    ghost laws = { nat_list_eq_equiv };
}

impl Packet {
    ghost use Rattle.rio_packets.specs.LinkForm.{Passes};

    /// The bytes of the link form, 8 to 276, with ackID 0.
    pub fn bytes(&self) -> &[u8]
        ensures value { result.now ≡ self.now }
        ensures passes { Passes result.now }
    {
        self.form.as_slice()
    }

    /// The packet of a link form that is known to be one.
    pub fn from_form(form: &[u8]) -> Packet
        requires { Passes form.now }
        ensures { result ≡ form.now }
    {
        Packet { form: copied(form) }
    }

    /// The same packet once more.
    pub fn copy(&self) -> Packet
        ensures same { result ≡ self.now }
    {
        Packet {
            form: copied(self.form.as_slice()),
        }
    }
}

/// The bytes in an array that holds the longest link form.
pub(crate) fn copied(bytes: &[u8]) -> ArrayVec<u8, MAX_BYTES>
    requires { length bytes.now ≤ 276 }
    ensures { result.items ≡ bytes.now }
{
    let mut copy = ArrayVec::new();
    append(&mut copy, bytes);
    copy
}

/// Appends bytes for which there is room.
pub(crate) fn append(bytes: &mut ArrayVec<u8, MAX_BYTES>, more: &[u8])
    requires { array_vec_len bytes.old + length more.now ≤ 276 }
    ensures { bytes.new.items ≡ bytes.old.items ++ more.now }
{
    if bytes.try_extend_from_slice(more).is_err() {
        unreachable!();
    }
}
