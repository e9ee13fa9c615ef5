//! `Registers`: what a device holds, and where a switch sends packets.
ghost use Rattle.std.specs.Prelude.{◌≡◌, ◌≤◌, ◌<◌, Bool, true, false, slice_set, IsTrue, IfSome};
ghost use Rattle.maint_registers.specs.Devices.{IsDevice, is_switch, with_link, no_routes, new_endpoint, new_switch};
ghost use Rattle.maint_registers.specs.Changes.{standard_shown};
ghost use Rattle.maint_registers.specs.Routes.{entry_of, next_port, port_named};

use std::marker::Model;

/// How many destinations a route table has.
const DESTINATIONS: usize = 1024;

/// An endpoint has no 16-bit ID of its own yet.
const NO_LARGE_ID: u16 = 0xffff;

/// No host holds the device (RapidIO Interconnect Specification 1.3, Part 3, host base device ID
/// lock).
pub(crate) const FREE: u16 = 0xffff;

/// An entry that names no port (this project's profile): as the entry of a destination it stands
/// for the default port, and as the default port it discards.
const NO_ENTRY: u8 = 255;

/// What a device is.
#[derive(Clone, Copy, Debug, PartialEq, Eq)]
pub(crate) enum DeviceKind {
    Endpoint,
    Switch,
}

/// The registers of one device. Contracts see their values.
#[derive(Debug, PartialEq, Eq, Drop)]
pub struct Registers {
    pub(crate) kind: DeviceKind,
    pub(crate) ports: u8,
    pub(crate) linked: u16,
    pub(crate) base_id: u8,
    pub(crate) large_id: u16,
    pub(crate) lock: u16,
    pub(crate) tag: u32,
    pub(crate) select: u16,
    pub(crate) routes: [u8; DESTINATIONS],
    pub(crate) default_port: u8,
    pub(crate) standard: bool,
}

impl Model for Registers {
    ghost use Rattle.maint_registers.specs.Devices.{Registers, IsDevice};

    ghost Value = { Registers };

    ghost use Rattle.maint_registers.specs.Inside.{device_of, inside_of};

    ghost view = { device_of };

    ghost invariant = { λ r. IsDevice (device_of r) };

    ghost inverse = { inside_of };
}

/// The entries of a route table that names no port.
#[tactic(auto, unfolding(crate::specs::Devices::no_routes))]
fn no_routes() -> [u8; DESTINATIONS]
    ensures { result ≡ no_routes }
{
    [NO_ENTRY; DESTINATIONS]
}

impl Registers {
    /// The registers of an endpoint with this 8-bit ID, whose one port has a link or none. It has
    /// no 16-bit ID, which is FFFF, no host holds it, and its tag is 0.
    pub fn endpoint(id: u8, linked: bool) -> Registers
        ensures { result ≡ new_endpoint id linked }
    {
        Registers {
            kind: DeviceKind::Endpoint,
            ports: 1,
            linked: u16::from(linked),
            base_id: id,
            large_id: NO_LARGE_ID,
            lock: FREE,
            tag: 0,
            select: 0,
            routes: no_routes(),
            default_port: NO_ENTRY,
            standard: false,
        }
    }

    /// The registers of a switch with 2 to 16 ports; bit n of `linked`, from the lowest, tells that
    /// port n has a link. No host holds it, its tag is 0, and it discards every packet.
    pub fn switch(ports: u8, linked: u16) -> Registers
        requires least { 2 ≤ ports }
        requires most { ports ≤ 16 }
        ensures { result ≡ new_switch ports linked }
    {
        Registers {
            kind: DeviceKind::Switch,
            ports,
            linked,
            base_id: 0,
            large_id: 0,
            lock: FREE,
            tag: 0,
            select: 0,
            routes: no_routes(),
            default_port: NO_ENTRY,
            standard: false,
        }
    }

    /// Has the device show, from now on, the registers that standard hosts look for besides the
    /// others: the operations, and the header of the extended features (RapidIO Interconnect
    /// Specification 1.3, Part 1 and Part 6; their values are this project's profile).
    pub fn show_standard(&mut self)
        ensures { self.new ≡ standard_shown self.old }
    {
        self.standard = true;
    }

    /// Returns whether the device is a switch.
    pub fn is_switch(&self) -> bool
        ensures { result ≡ is_switch self.now }
    {
        self.kind == DeviceKind::Switch
    }

    /// Returns how many ports the device has, 1 if it is an endpoint.
    pub fn ports(&self) -> u8
        ensures value { result ≡ self.now.ports }
        ensures endpoint { is_switch self.now ≡ false → result ≡ 1 }
        ensures device { IsDevice self.now }
    {
        self.ports
    }

    /// Returns the 8-bit ID of an endpoint, or 0 of a switch
    /// (RapidIO Interconnect Specification 1.3, Part 3, base device ID).
    pub fn base_id(&self) -> u8
        ensures value { result ≡ self.now.base_id }
        ensures switch { is_switch self.now ≡ true → result ≡ 0 }
    {
        self.base_id
    }

    /// Returns the 16-bit ID of an endpoint, FFFF at first, or 0 of a switch
    /// (RapidIO Interconnect Specification 1.3, Part 3, base device ID).
    pub fn large_id(&self) -> u16
        ensures value { result ≡ self.now.large_id }
        ensures switch { is_switch self.now ≡ true → result ≡ 0 }
    {
        self.large_id
    }

    /// Sets the 16-bit ID of an endpoint.
    pub fn set_large(&mut self, id: u16)
        requires { is_switch self.old ≡ false }
        ensures { self.new ≡ record self.old { large_id = id } }
    {
        self.large_id = id;
    }

    /// Returns the ID of the host that holds the device, or FFFF if none does
    /// (RapidIO Interconnect Specification 1.3, Part 3, host base device ID lock).
    pub fn lock(&self) -> u16
        ensures { result ≡ self.now.lock }
    {
        self.lock
    }

    /// Sets the lock, whatever it was. A write of a host goes by the rule of the lock: see
    /// [`Registers::write`].
    pub fn set_lock(&mut self, id: u16)
        ensures { self.new ≡ record self.old { lock = id } }
    {
        self.lock = id;
    }

    /// Returns the port to which a switch sends packets for a destination of either size: its
    /// entry, or the default port if the entry is 255 or the table has none, which is so from 1,024
    /// on. `None` comes exactly if that number is not below the number of ports, or if the device
    /// is an endpoint (RapidIO Interconnect Specification 1.3, Part 3, route tables; both meanings
    /// of 255 are this project's profile).
    pub fn next_port(&self, dest: u16) -> Option<u8>
        ensures value { result ≡ next_port self.now dest }
        ensures range { IfSome result (λ port. port < self.now.ports) }
    {
        let port = match self.entry(dest) {
            NO_ENTRY => self.default_port,
            entry => entry,
        };
        let is_port = self.kind == DeviceKind::Switch && port < self.ports;
        is_port.then_some(port)
    }

    /// The entry of a destination; a destination past the table has none.
    pub(crate) fn entry(&self, dest: u16) -> u8
        ensures { result ≡ entry_of self.now dest }
    {
        let place = usize::from(dest);
        if place < DESTINATIONS {
            self.routes[place]
        } else {
            NO_ENTRY
        }
    }

    /// Says that a port below 16 has a link.
    #[tactic(auto, using(crate::proofs::LinkLaws::or_link))]
    pub fn set_linked(&mut self, port: u8)
        requires { port < 16 }
        ensures { self.new ≡ record self.old { linked = with_link self.old.linked port } }
    {
        self.linked |= 1 << port;
    }

    /// Sets the entry of a destination in the route table of a switch.
    pub fn set_route(&mut self, dest: u16, port: u8)
        requires switch { IsTrue (is_switch self.old) }
        requires destination { dest < 1024 }
        ensures { self.new ≡ record self.old { routes = slice_set self.old.routes dest port } }
    {
        self.routes[dest as usize] = port;
    }

    /// Sets the default port of a switch.
    pub fn set_default(&mut self, port: u8)
        requires { IsTrue (is_switch self.old) }
        ensures { self.new ≡ record self.old { default_port = port } }
    {
        self.default_port = port;
    }
}
