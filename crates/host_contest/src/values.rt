//! Two numbers that have a meaning in the registers of a device (RapidIO Interconnect Specification
//! 1.3, Part 3, host device lock; `docs/registers.md`).

/// The value of a lock that no host holds.
pub(crate) const FREE: u32 = 0xffff;

/// The port of an entry that is cleared.
pub(crate) const CLEARED: u8 = 255;
