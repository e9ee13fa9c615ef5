//! What C holds of a port.
ghost use Rattle.std.specs.Prelude.{◌≡◌, ◌<◌, ◌∷◌, [], List, length};
ghost use Rattle.library_calls.specs.PortsSeen.{PortSeen};
ghost use Rattle.library_calls.specs.contracts.open_port.OpenPort.{the_row};
ghost use Rattle.std.specs.Coded.{coded_list};
ghost use Rattle.kigvarp_c.specs.HandlesOwn.{handle_owns};

use crate::parts::Parts;
use library_calls::OpenPort;
use std::alloc::Global;
use std::marker::Model;
use std::ptr;

/// The memory of a port, or none.
#[repr(C)]
#[derive(Drop)]
pub struct PortHandle {
    at: *mut u8,
    alloc: Global,
    pub ghost ports: { List PortSeen } by { coded_list the_row.coded },
}

impl Model for PortHandle {
    ghost also_owns = { λ h. handle_owns the_row h.alloc h.at h.ports };
}

impl PortHandle {
    /// A handle of no port.
    pub(crate) fn closed(alloc: Global) -> PortHandle
        ensures { result.ports ≡ [] }
    {
        PortHandle {
            at: ptr::null_mut(),
            alloc,
        }
    }

    /// A handle of this port.
    pub(crate) fn of_parts(parts: Parts<OpenPort, Global>) -> PortHandle
        ensures { result.ports ≡ parts.value ∷ [] }
    {
        let Parts { ptr, alloc } = parts;
        PortHandle {
            at: ptr as *mut u8,
            alloc,
        }
    }

    /// The port of a handle that has one.
    pub(crate) fn into_parts(self) -> Parts<OpenPort, Global>
        requires { 0 < length self.ports }
        ensures { (others : List PortSeen) × (self.ports ≡ result.value ∷ others) }
    {
        let PortHandle { at, alloc } = self;
        Parts {
            ptr: at as *mut OpenPort,
            alloc,
        }
    }
}
