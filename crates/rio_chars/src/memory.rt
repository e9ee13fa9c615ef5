//! Room in memory, and bytes copied into it.
ghost use Rattle.std.specs.Prelude.{◌≡◌, ◌≤◌, length, take, drop, IfOk};

use std::alloc::{AllocError, Global};

/// Room for this many bytes.
pub(crate) fn zeros(alloc: Global, count: usize) -> Result<Vec<u8>, AllocError>
    ensures { IfOk result (λ bytes. length bytes.items ≡ count) }
{
    vec![in alloc; 0u8; count]
}

/// Copies this many bytes to the front of a piece.
pub(crate) fn copy_front(piece: &mut [u8], bytes: &[u8], count: usize)
    requires room { count ≤ length piece.old }
    requires bytes { count ≤ length bytes.now }
    ensures front { take count piece.new ≡ take count bytes.now }
    ensures rest { drop count piece.new ≡ drop count piece.old }
{
    piece[..count].copy_from_slice(&bytes[..count]);
}
