//! The offsets of registers, and two numbers that have a meaning in them (RapidIO Interconnect
//! Specification 1.3, Part 1, Part 3 and Part 6; `docs/registers.md` has the table).

/// Processing element features.
pub const FEATURES: u32 = 0x00_0010;

/// How many ports a switch has, and the port on which it was asked.
pub const PORT_INFORMATION: u32 = 0x00_0014;

/// The IDs of an endpoint: that of 8 bits above that of 16 bits.
pub const BASE_ID: u32 = 0x00_0060;

/// The ID of the host that holds the device.
pub const HOST_LOCK: u32 = 0x00_0068;

/// The component tag.
pub const COMPONENT_TAG: u32 = 0x00_006c;

/// The destination whose entry is read and written.
pub const ROUTE_SELECT: u32 = 0x00_0070;

/// The entry of that destination.
pub const ROUTE_ENTRY: u32 = 0x00_0074;

/// The port for destinations without an entry.
pub const DEFAULT_PORT: u32 = 0x00_0078;

/// The error and status register of port 0, in a block that begins at 000100.
pub const FIRST_STATUS: u32 = 0x00_0158;

/// How far the registers of two neighbouring ports are apart.
pub const STATUS_STEP: u32 = 0x20;

/// The destination by which a host asks along a path.
pub const ALONG_PATH: u8 = 255;
