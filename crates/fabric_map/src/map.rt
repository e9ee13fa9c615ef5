//! The types of a map.

ghost use Rattle.std.specs.Prelude.{◌≡◌, ◌<◌, [], length};
ghost use Rattle.fabric_map.specs.Walked.{onward};

use arrayvec::ArrayVec;
use std::marker::Model;

/// A list of ports that leads from the host to a device: the host's port 0, and then a port of each
/// switch on the way. The host's own path is empty.
#[derive(Debug, Drop)]
pub struct Path {
    items: ArrayVec<u8, 64>,
}

impl Model for Path {
    ghost use Rattle.std.specs.Prelude.{List, ℕ};

    ghost Value = { List ℕ };

    ghost view = { λ path. path.items.items };
}

impl Path {
    /// A path of these ports.
    pub fn new(items: ArrayVec<u8, 64>) -> Path
        ensures { result ≡ items.items }
    {
        Path { items }
    }

    /// The path of the host.
    pub fn of_host() -> Path
        ensures { result ≡ [] }
    {
        Path {
            items: ArrayVec::new(),
        }
    }

    /// A path of the same ports.
    pub fn copied(&self) -> Path
        ensures { result ≡ self.now }
    {
        let ports = &self.items;
        let mut items = ArrayVec::new();
        match items.try_extend_from_slice(ports.as_slice()) {
            Ok(()) => Path { items },
            Err(_) => unreachable!(),
        }
    }

    /// The path and one port more.
    pub fn onward(&self, port: u8) -> Path
        requires { length self.now < 64 }
        ensures { result ≡ onward self.now port }
    {
        let mut path = self.copied();
        path.items.push(port);
        path
    }

    /// The ports of the path.
    pub fn as_slice(&self) -> &[u8]
        ensures { result.now ≡ self.now }
    {
        self.items.as_slice()
    }
}

/// What a device is.
#[derive(Clone, Copy, Debug, PartialEq, Eq)]
pub enum Kind {
    /// An endpoint, and its base device ID.
    Endpoint { id: u8 },
    /// A switch, how many ports it has, and the port by which its path enters it.
    Switch { ports: u8, entry: u8 },
}

/// A device that was met.
#[derive(Debug, Drop)]
pub struct Device {
    /// Its place in the order of meeting, from 1.
    pub tag: u32,
    pub kind: Kind,
    pub path: Path,
}

/// The switch with this tag sends packets for this ID to this port.
#[derive(Clone, Copy, Debug, PartialEq, Eq)]
pub struct Entry {
    pub tag: u32,
    pub id: u8,
    pub port: u8,
}

/// A numbered fabric: the devices in the order of their tags, and the entries in the order of tags
/// and then of IDs.
#[derive(Debug, Drop)]
pub struct Map {
    pub devices: Vec<Device>,
    pub entries: Vec<Entry>,
}
