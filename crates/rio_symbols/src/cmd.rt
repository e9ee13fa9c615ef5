//! The values of cmd: which request a link-request makes (RapidIO Interconnect Specification 1.3,
//! Part 6, "Link-Request Control Symbol"). The others are reserved.

/// The far port is to be reset.
pub const RESET_DEVICE: u8 = 3;

/// The far port is asked for a link-response.
pub const INPUT_STATUS: u8 = 4;
