//! What C holds of a fabric.
ghost use Rattle.std.specs.Prelude.{◌≡◌, ◌<◌, ◌∷◌, [], List, length};
ghost use Rattle.library_calls.specs.FabricsSeen.{FabricSeen};
ghost use Rattle.library_calls.specs.contracts.open_fabric.OpenFabric.{the_row};
ghost use Rattle.std.specs.Coded.{coded_list};
ghost use Rattle.kigvarp_c.specs.HandlesOwn.{handle_owns};

use crate::parts::Parts;
use library_calls::OpenFabric;
use std::alloc::Global;
use std::marker::Model;
use std::ptr;

/// The memory of a fabric, or none.
#[repr(C)]
#[derive(Drop)]
pub struct FabricHandle {
    at: *mut u8,
    alloc: Global,
    pub ghost fabrics: { List FabricSeen } by { coded_list the_row.coded },
}

impl Model for FabricHandle {
    ghost also_owns = { λ h. handle_owns the_row h.alloc h.at h.fabrics };
}

impl FabricHandle {
    /// A handle of no fabric.
    pub(crate) fn closed(alloc: Global) -> FabricHandle
        ensures { result.fabrics ≡ [] }
    {
        FabricHandle {
            at: ptr::null_mut(),
            alloc,
        }
    }

    /// A handle of this fabric.
    pub(crate) fn of_parts(parts: Parts<OpenFabric, Global>) -> FabricHandle
        ensures { result.fabrics ≡ parts.value ∷ [] }
    {
        let Parts { ptr, alloc } = parts;
        FabricHandle {
            at: ptr as *mut u8,
            alloc,
        }
    }

    /// The fabric of a handle that has one.
    pub(crate) fn into_parts(self) -> Parts<OpenFabric, Global>
        requires { 0 < length self.fabrics }
        ensures { (others : List FabricSeen) × (self.fabrics ≡ result.value ∷ others) }
    {
        let FabricHandle { at, alloc } = self;
        Parts {
            ptr: at as *mut OpenFabric,
            alloc,
        }
    }
}
