//! The numbers of packets (RapidIO Interconnect Specification 1.3, Part 1, packet formats).

/// The format types (RapidIO Interconnect Specification 1.3, Part 1, packet formats).
pub(crate) const READ_CLASS: u8 = 2;

pub(crate) const WRITE_CLASS: u8 = 5;

pub(crate) const STREAMING_WRITE_CLASS: u8 = 6;

pub(crate) const RESPONSE_CLASS: u8 = 13;

/// The transaction types of requests: NREAD and NWRITE have the same.
pub(crate) const NREAD: u8 = 4;

pub(crate) const NWRITE: u8 = 4;

pub(crate) const NWRITE_R: u8 = 5;

/// The transaction types of responses.
pub(crate) const WITHOUT_DATA: u8 = 0;

pub(crate) const WITH_DATA: u8 = 8;

/// The statuses of responses.
pub(crate) const DONE: u8 = 0;

pub(crate) const ERROR: u8 = 7;
