//! Input read to its end.
ghost use Rattle.std.specs.Prelude.{◌≡◌, ◌≤◌, ◌<◌, ◌+◌, ◌++◌, ℕ, List, length, IfOk, OnOk, IsErrOf, IsOk, IfSome, IsTrue, IsFalse};
ghost use Rattle.std.specs.Io.KnownBytes.{Consumes, IsAtEnd};
ghost use Rattle.rio_chars.specs.Faults.{Rose};
ghost use Rattle.rio_chars.specs.Takings.{ConsumesUpTo, ConsumesJust};
ghost use Rattle.rio_chars.specs.declared.reading.ReadEnd.TheVariants.{Fault, NoMemory};

use crate::memory::zeros;
use crate::{Failed, Source};
use std::alloc::{AllocError, Global};
use thiserror::Error;

/// Why the input was not read whole.
#[derive(Clone, Copy, Debug, PartialEq, Eq, Error)]
pub enum ReadEnd {
    /// A read failed.
    #[error("Fault")]
    Fault,
    /// One byte more than the limit was read.
    #[error("TooLong")]
    TooLong,
    /// Memory was wanted and not given.
    #[error("NoMemory")]
    NoMemory,
}

impl From<Failed> for ReadEnd {
    ghost from_gives = { λ _ end. end ≡ Fault };

    fn from(_: Failed) -> Self {
        ReadEnd::Fault
    }
}

impl From<AllocError> for ReadEnd {
    ghost from_gives = { λ _ end. end ≡ NoMemory };

    fn from(_: AllocError) -> Self {
        ReadEnd::NoMemory
    }
}

/// A piece is a multiple of the pages that systems hand over, and small enough for a near cache.
const PIECE: usize = 65536;

/// Reads all bytes up to the end of input, at most `limit` of them. TooLong comes if there is one
/// more, which is the last that it reads; Fault if a read failed, and then the count of faults
/// rose, as at no other answer; NoMemory if memory was not given, for the piece that it reads into
/// or for the bytes. At each of them the bytes that it has read are lost.
pub fn read_all<S: Source>(alloc: Global, source: &mut S, limit: usize) -> Result<Vec<u8>, ReadEnd>
    ensures whole { IfOk result
        (λ bytes. Consumes (S.left source.old) (S.left source.new) bytes.items) }
    ensures end { OnOk result (IsAtEnd (S.left source.new)) }
    ensures within { IfOk result (λ bytes. length bytes.items ≤ limit) }
    ensures fault { IsErrOf result ReadEnd.Fault
        → Rose (S.faults source.old) (S.faults source.new) }
    ensures too_long { IsErrOf result ReadEnd.TooLong
        → ConsumesJust (S.left source.old) (S.left source.new) (limit + 1) }
    ensures fits { IfSome (S.left source.old)
        (λ left. length left ≤ limit → ¬ IsErrOf result ReadEnd.TooLong) }
    ensures longer { IfSome (S.left source.old) (λ left. limit < length left → ¬ IsOk result) }
    ensures bounded { ConsumesUpTo (S.left source.old) (S.left source.new) (limit + 1) }
    ensures counts { ¬ IsErrOf result ReadEnd.Fault → S.faults source.new ≡ S.faults source.old }
    ensures never_falls { S.faults source.old ≤ S.faults source.new }
{
    let mut bytes = Vec::new(alloc);
    let mut piece = zeros(alloc, PIECE)?;
    while take_up(source, &mut piece, &mut bytes, limit)? {}
    Ok(bytes)
}

/// Reads one piece behind the bytes, and answers whether there was any.
fn take_up<S: Source>(
    source: &mut S,
    piece: &mut [u8],
    bytes: &mut Vec<u8>,
    limit: usize,
) -> Result<bool, ReadEnd>
    requires room { length piece.old ≡ 65536 }
    requires within { length bytes.old.items ≤ limit }
    ensures more { OnOk result
        ((taken : List ℕ) × (bytes.new.items ≡ bytes.old.items ++ taken)
        × Consumes (S.left source.old) (S.left source.new) taken) }
    ensures within { OnOk result (length bytes.new.items ≤ limit) }
    ensures end { IfOk result (λ any. IsFalse any → IsAtEnd (S.left source.new)) }
    ensures some { IfOk result
        (λ any. IsTrue any → length bytes.old.items < length bytes.new.items) }
    ensures fault { IsErrOf result ReadEnd.Fault
        → Rose (S.faults source.old) (S.faults source.new) }
    ensures too_long { IsErrOf result ReadEnd.TooLong
        → (taken : List ℕ) × Consumes (S.left source.old) (S.left source.new) taken
        × (length bytes.old.items + length taken ≡ limit + 1) }
    ensures bounded { (taken : List ℕ) × Consumes (S.left source.old) (S.left source.new) taken
        × (length bytes.old.items + length taken ≤ limit + 1) }
    ensures counts { ¬ IsErrOf result ReadEnd.Fault → S.faults source.new ≡ S.faults source.old }
    ensures never_falls { S.faults source.old ≤ S.faults source.new }
{
    let room = limit - bytes.len();
    let wanted = if room < piece.len() {
        room + 1
    } else {
        piece.len()
    };
    let part = &mut piece[..wanted];
    let count = source.read(part)?;
    if count > room {
        return Err(ReadEnd::TooLong);
    }
    bytes.extend_from_slice(&part[..count])?;
    Ok(count > 0)
}
