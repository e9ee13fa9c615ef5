//! Reads, writes and responses as values.
ghost use Rattle.std.specs.Prelude.{◌≡◌, ◌≤◌, length};

use arrayvec::ArrayVec;
use std::marker::Model;

/// How many bytes a read, a write or a response has at most.
pub const MAX_LOAD: usize = 64;

/// The data of a write or of a response: up to 64 bytes.
#[derive(Debug, Drop)]
pub struct Load {
    items: ArrayVec<u8, MAX_LOAD>,
}

impl Model for Load {
    ghost use Rattle.std.specs.Prelude.{List, ℕ};

    ghost Value = { List ℕ };

    ghost view = { λ load. load.items.items };

    ghost inverse = { λ bytes. record { items = record { items = bytes } } };
}

/// Data are equal where their bytes are.
impl PartialEq for Load {
    ghost use Rattle.std.specs.Prelude.{nat_eq};
    ghost use Rattle.std.specs.Cmp.{partial_equiv_from_equiv};
    ghost use Rattle.std.specs.Cmp.Lexicographic.{pointwise, nat_list_eq_equiv};

    ghost eq = { λ x y. pointwise nat_eq x y };

    ghost laws = { partial_equiv_from_equiv nat_list_eq_equiv };

    fn eq(&self, other: &Self) -> bool {
        self.items.as_slice() == other.items.as_slice()
    }
}

impl Eq for Load {
    ghost use Rattle.std.specs.Cmp.Lexicographic.{nat_list_eq_equiv};

    ghost laws = { nat_list_eq_equiv };
}

impl Load {
    /// Data of these bytes.
    pub fn new(items: ArrayVec<u8, MAX_LOAD>) -> Load
        ensures { result ≡ items.items }
    {
        Load { items }
    }

    /// Data of these bytes, of which there are at most 64.
    pub fn of_bytes(bytes: &[u8]) -> Load
        requires { length bytes.now ≤ 64 }
        ensures { result ≡ bytes.now }
    {
        let mut items = ArrayVec::new();
        match items.try_extend_from_slice(bytes) {
            Ok(()) => Load { items },
            Err(_) => unreachable!(),
        }
    }

    /// The bytes of the data.
    pub fn as_slice(&self) -> &[u8]
        ensures value { result.now ≡ self.now }
        ensures most { length result.now ≤ 64 }
    {
        self.items.as_slice()
    }
}

/// A read or a write of memory, or a response to one, as a packet carries it. Addresses are those
/// of bytes, 32 bits, and begin a double-word in what is good: they are multiples of 8 (RapidIO
/// Interconnect Specification 1.3, Part 1, request and response packet formats; that only 8, 16, 32
/// or 64 bytes at a time are read, or written by other than SWRITE, is this project's profile).
#[derive(Debug, Drop, PartialEq, Eq)]
pub enum Io {
    /// NREAD: asks for so many bytes, 8, 16, 32 or 64, from an address on.
    NRead {
        /// The transaction number, which the response has too.
        tid: u8,
        /// Where the first byte stands.
        addr: u32,
        /// How many bytes are asked for.
        size: u8,
    },
    /// NWRITE: asks to write 8, 16, 32 or 64 bytes, without a response.
    NWrite {
        /// Where the first byte goes.
        addr: u32,
        /// What is written.
        load: Load,
    },
    /// NWRITE_R: asks to write 8, 16, 32 or 64 bytes, and for a response.
    NWriteR {
        /// The transaction number, which the response has too.
        tid: u8,
        /// Where the first byte goes.
        addr: u32,
        /// What is written.
        load: Load,
    },
    /// SWRITE: asks to write 8 to 64 bytes, in whole double-words, without a response.
    SWrite {
        /// Where the first byte goes.
        addr: u32,
        /// What is written.
        load: Load,
    },
    /// A response.
    Reply {
        /// 0 if what was asked is done, 7 if it could not be done.
        status: u8,
        /// The transaction number of the request.
        tid: u8,
        /// The bytes of a read that is done.
        load: Option<Load>,
    },
    /// An NREAD that is not of the right form: its size is none of the profile, or its address is
    /// extended.
    BadRead {
        /// The transaction number.
        tid: u8,
    },
    /// An NWRITE_R that is not of the right form: its size is none of the profile or not that of
    /// its data, or its address is extended.
    BadWriteR {
        /// The transaction number.
        tid: u8,
    },
    /// An NWRITE or SWRITE that is not of the right form.
    BadWrite,
    /// Anything else.
    Other,
}
