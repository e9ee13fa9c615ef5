//! What C holds of a checker.
ghost use Rattle.std.specs.Prelude.{◌≡◌, ◌<◌, ◌∷◌, [], List, length};
ghost use Rattle.library_calls.specs.declared.checks.OpenChecker.{OpenChecker as CheckerSeen};
ghost use Rattle.library_calls.specs.contracts.checks.OpenChecker.{the_row};
ghost use Rattle.std.specs.Coded.{coded_list};
ghost use Rattle.kigvarp_c.specs.HandlesOwn.{handle_owns};

use crate::parts::Parts;
use library_calls::OpenChecker;
use std::alloc::Global;
use std::marker::Model;
use std::ptr;

/// The memory of a checker, or none.
#[repr(C)]
#[derive(Drop)]
pub struct CheckerHandle {
    at: *mut u8,
    alloc: Global,
    pub ghost checkers: { List CheckerSeen } by { coded_list the_row.coded },
}

impl Model for CheckerHandle {
    ghost also_owns = { λ h. handle_owns the_row h.alloc h.at h.checkers };
}

impl CheckerHandle {
    /// A handle of no checker.
    pub(crate) fn closed(alloc: Global) -> CheckerHandle
        ensures { result.checkers ≡ [] }
    {
        CheckerHandle {
            at: ptr::null_mut(),
            alloc,
        }
    }

    /// A handle of this checker.
    pub(crate) fn of_parts(parts: Parts<OpenChecker, Global>) -> CheckerHandle
        ensures { result.checkers ≡ parts.value ∷ [] }
    {
        let Parts { ptr, alloc } = parts;
        CheckerHandle {
            at: ptr as *mut u8,
            alloc,
        }
    }

    /// The checker of a handle that has one.
    pub(crate) fn into_parts(self) -> Parts<OpenChecker, Global>
        requires { 0 < length self.checkers }
        ensures { (others : List CheckerSeen) × (self.checkers ≡ result.value ∷ others) }
    {
        let CheckerHandle { at, alloc } = self;
        Parts {
            ptr: at as *mut OpenChecker,
            alloc,
        }
    }
}
