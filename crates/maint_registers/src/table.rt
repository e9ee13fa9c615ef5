//! The table of registers: what stands at an offset, and how it is read and written.
ghost use Rattle.std.specs.Prelude.{◌≡◌, ◌<◌, ◌↔◌, false, IsTrue, IsSome, IfSome, unwrap_or, option_map};
ghost use Rattle.maint_registers.specs.Devices.{IsSameDevice, is_switch};
ghost use Rattle.maint_registers.specs.Table.{rows, in_rows, status_port, status_of, register_at};
ghost use Rattle.maint_registers.specs.Access.{value_of, value_at, locked, written_to, written_at};

use crate::registers::{DeviceKind, FREE, Registers};

/// What stands at an offset.
#[derive(Clone, Copy, Debug, PartialEq, Eq)]
enum Register {
    /// A register that always shows this value.
    Fixed(u32),
    /// How many ports a switch has, and the port on which it was asked.
    PortInformation,
    /// The IDs of an endpoint: that of 8 bits, which can be written, and that of 16 bits.
    BaseId,
    /// The ID of the host that holds the device.
    HostLock,
    /// The component tag.
    ComponentTag,
    /// The destination whose entry is read and written.
    RouteSelect,
    /// The entry of that destination.
    RouteEntry,
    /// The port for destinations without an entry.
    DefaultPort,
}

/// The offset of the error and status register of port 0 (RapidIO Interconnect Specification 1.3,
/// Part 6, port n error and status, in a block that begins at 000100).
const FIRST_STATUS: u32 = 0x00_0158;

/// How far the registers of two neighbouring ports are apart.
const STATUS_STEP: u32 = 0x20;

impl Registers {
    /// Returns what a request that came to a port reads at an offset. `None` comes exactly if the
    /// offset is not in the column of this kind of device; an offset that is not a multiple of 4 is
    /// in none.
    pub fn read(&self, offset: u32, port: u8) -> Option<u32>
        ensures { result ≡ value_at self.now offset port }
    {
        Some(self.value(self.register_at(offset)?, port))
    }

    /// Writes to an offset: the bits that the register there has take their value from the same
    /// bits of `value`, but the host lock goes by its own rule. Returns false exactly if the offset
    /// is not in the column of this kind of device or is not written; then nothing changes. A write
    /// to the host lock that leaves it returns true (RapidIO Interconnect Specification 1.3, Part 1
    /// and Part 3, registers).
    pub fn write(&mut self, offset: u32, value: u32) -> bool
        ensures exact { IsTrue result ↔ IsSome (written_at self.old offset value) }
        ensures becomes { self.new ≡ unwrap_or (written_at self.old offset value) self.old }
        ensures device { IsSameDevice self.old self.new }
    {
        match self.register_at(offset) {
            Some(register) => self.write_to(register, value),
            None => false,
        }
    }

    /// The value that a register shows.
    fn value(&self, register: Register, port: u8) -> u32
        ensures { result ≡ value_of self.now port register }
    {
        match register {
            Register::Fixed(value) => value,
            Register::PortInformation => u32::from(self.ports) << 8 | u32::from(port),
            Register::BaseId => u32::from(self.base_id()) << 16 | u32::from(self.large_id()),
            Register::HostLock => u32::from(self.lock),
            Register::ComponentTag => self.tag,
            Register::RouteSelect => u32::from(self.select),
            Register::RouteEntry => u32::from(self.entry(self.select)),
            Register::DefaultPort => u32::from(self.default_port),
        }
    }

    /// Writes to a register, and returns whether it can be written.
    fn write_to(&mut self, register: Register, value: u32) -> bool
        requires { register ≡ Register.BaseId → is_switch self.old ≡ false }
        ensures exact { IsTrue result ↔ IsSome (written_to self.old value register) }
        ensures becomes { self.new ≡ unwrap_or (written_to self.old value register) self.old }
        ensures device { IsSameDevice self.old self.new }
    {
        match register {
            Register::Fixed(_) | Register::PortInformation => return false,
            Register::BaseId => self.base_id = (value >> 16 & 0xff) as u8,
            Register::HostLock => self.lock = locked(self.lock, (value & 0xffff) as u16),
            Register::ComponentTag => self.tag = value,
            Register::RouteSelect => self.select = (value & 0x3ff) as u16,
            Register::RouteEntry => self.routes[self.select as usize] = (value & 0xff) as u8,
            Register::DefaultPort => self.default_port = (value & 0xff) as u8,
        }
        true
    }

    /// The register at an offset of this device's column.
    fn register_at(&self, offset: u32) -> Option<Register>
        ensures { result ≡ register_at self.now offset }
    {
        let register = match self.kind {
            DeviceKind::Endpoint => endpoint_register(offset, self.standard),
            DeviceKind::Switch => switch_register(offset, self.standard),
        };
        register.or(self.status_register(offset))
    }

    /// The error and status register at an offset, of a port that this device has: 2 with a link, 1
    /// without (this project's profile: no other bit).
    fn status_register(&self, offset: u32) -> Option<Register>
        ensures { result
            ≡ option_map (λ n. Register.Fixed (status_of self.now n))
            (status_port self.now.ports offset) }
    {
        let port = status_port(self.ports, offset)?;
        let linked = self.linked >> port & 1 == 1;
        Some(Register::Fixed(if linked { 2 } else { 1 }))
    }
}

/// The registers that only an endpoint has, and those of both kinds as an endpoint shows them.
fn endpoint_register(offset: u32, standard: bool) -> Option<Register>
    ensures { result ≡ in_rows DeviceKind.Endpoint (rows standard) offset }
{
    Some(match offset {
        0x00_0000 => Register::Fixed(0x0001_ffff),
        0x00_000c => Register::Fixed(0x0000_0100),
        0x00_0010 => Register::Fixed(0x0000_0018),
        0x00_0060 => Register::BaseId,
        0x00_0068 => Register::HostLock,
        0x00_006c => Register::ComponentTag,
        0x00_0018 | 0x00_001c if standard => Register::Fixed(0x0000_f000),
        0x00_0100 if standard => Register::Fixed(0x0000_0001),
        _ => return None,
    })
}

/// The registers that only a switch has, and those of both kinds as a switch shows them.
fn switch_register(offset: u32, standard: bool) -> Option<Register>
    ensures { result ≡ in_rows DeviceKind.Switch (rows standard) offset }
{
    Some(match offset {
        0x00_0000 => Register::Fixed(0x0002_ffff),
        0x00_000c => Register::Fixed(0x0000_0100),
        0x00_0010 => Register::Fixed(0x1000_0118),
        0x00_0014 => Register::PortInformation,
        0x00_0034 => Register::Fixed(0x0000_03ff),
        0x00_0068 => Register::HostLock,
        0x00_006c => Register::ComponentTag,
        0x00_0070 => Register::RouteSelect,
        0x00_0074 => Register::RouteEntry,
        0x00_0078 => Register::DefaultPort,
        0x00_0018 | 0x00_001c if standard => Register::Fixed(0x0000_0000),
        0x00_0100 if standard => Register::Fixed(0x0000_0003),
        _ => return None,
    })
}

/// The port below a number whose error and status register stands at an offset.
fn status_port(ports: u8, offset: u32) -> Option<u8>
    ensures port { result ≡ status_port ports offset }
    ensures range { IfSome result (λ port. port < ports) }
{
    let past = offset.checked_sub(FIRST_STATUS)?;
    let port = past / STATUS_STEP;
    if past % STATUS_STEP == 0 && port < u32::from(ports) {
        Some(port as u8)
    } else {
        None
    }
}

/// The lock after the ID of a host is written to it: a free lock is taken, the holder's own ID
/// frees it, and any other ID leaves it (RapidIO Interconnect Specification 1.3, Part 3, host base
/// device ID lock).
fn locked(lock: u16, id: u16) -> u16
    ensures { result ≡ locked lock id }
{
    match lock {
        FREE => id,
        _ if lock == id => FREE,
        _ => lock,
    }
}
