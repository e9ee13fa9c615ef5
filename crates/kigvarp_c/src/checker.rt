//! A check of a trace, for C.
ghost use Rattle.std.specs.Prelude.{◌≡◌, ◌≢◌, ◌∷◌, [], List, MatchOption};
ghost use Rattle.library_calls.specs.declared.checks.OpenChecker.{OpenChecker as CheckerSeen};
ghost use Rattle.library_calls.specs.Checks.{CheckerTakes, CheckerEndsBy};
ghost use Rattle.kigvarp_c.specs.Checkers.{IsCheckerHandle, OpensChecker};
ghost use Rattle.kigvarp_c.specs.Calls.{Calls, OpensBy, ClosesBy};

use crate::checker_handle::CheckerHandle;
use crate::parts::Parts;
use library_calls::{CallStatus, HitTold, OpenChecker, call_number};
use std::alloc::Global;
use std::mem;

/// A checker as C holds it: zeroed, it is closed.
#[repr(C)]
pub struct KigvarpChecker {
    pub handle: CheckerHandle,
    pub open: usize,
}

/// Takes the checker out of an open handle, which is closed then.
fn take_checker(alloc: Global, checker: &mut KigvarpChecker) -> Option<Box<OpenChecker, Global>>
    requires { IsCheckerHandle checker.old }
    ensures taken { MatchOption result (checker.old.handle.checkers ≡ [])
        (λ opened. (others : List CheckerSeen)
        × (checker.old.handle.checkers ≡ opened.value ∷ others)) }
    ensures closed { checker.new.handle.checkers ≡ [] }
    ensures handle { IsCheckerHandle checker.new }
{
    if checker.open == 0 {
        return None;
    }
    checker.open = 0;
    let handle = mem::replace(&mut checker.handle, CheckerHandle::closed(alloc));
    Some(handle.into_parts().into_box())
}

/// Opens a handle with this checker.
fn put_checker(checker: &mut KigvarpChecker, opened: Box<OpenChecker, Global>)
    ensures open { checker.new.handle.checkers ≡ opened.value ∷ [] }
    ensures handle { IsCheckerHandle checker.new }
{
    checker.handle = CheckerHandle::of_parts(Parts::of(opened));
    checker.open = 1;
}

/// Opens a checker of a trace of the fabric that these set-up lines make. If a reason hits one of
/// them, `hit` tells which.
#[unsafe(no_mangle)]
pub extern "C" fn kigvarp_checker_open(
    alloc: Global,
    checker: &mut KigvarpChecker,
    script: &[u8],
    hit: &mut HitTold,
) -> u32
    requires { IsCheckerHandle checker.old }
    ensures handle { IsCheckerHandle checker.new }
    ensures opens { OpensBy (OpensChecker script.now hit.new) checker.old.handle.checkers result
        checker.new.handle.checkers }
    ensures stays { checker.old.open ≢ 0 → hit.new ≡ hit.old }
{
    if checker.open != 0 {
        return call_number(CallStatus::Open);
    }
    let opened = match OpenChecker::new(alloc, script, hit) {
        Ok(opened) => opened,
        Err(status) => return call_number(status),
    };
    let Ok(opened) = Box::new(alloc, opened) else {
        return call_number(CallStatus::NoMemory);
    };
    put_checker(checker, opened);
    call_number(CallStatus::Done)
}

/// Closes a checker, and gives its memory back.
#[unsafe(no_mangle)]
pub extern "C" fn kigvarp_checker_close(alloc: Global, checker: &mut KigvarpChecker) -> u32
    requires { IsCheckerHandle checker.old }
    ensures handle { IsCheckerHandle checker.new }
    ensures closes { ClosesBy checker.old.handle.checkers result checker.new.handle.checkers }
{
    match take_checker(alloc, checker) {
        Some(_) => call_number(CallStatus::Done),
        None => call_number(CallStatus::Closed),
    }
}

/// Takes the next line of a trace. If a reason hits it, or the edit before it, `hit` tells which
/// line, counted from 1.
#[unsafe(no_mangle)]
pub extern "C" fn kigvarp_checker_take(
    alloc: Global,
    checker: &mut KigvarpChecker,
    line: &[u8],
    hit: &mut HitTold,
) -> u32
    requires { IsCheckerHandle checker.old }
    ensures handle { IsCheckerHandle checker.new }
    ensures does { Calls (hit.new ≡ hit.old) (CheckerTakes line.now hit.new)
        checker.old.handle.checkers result checker.new.handle.checkers }
{
    let Some(mut opened) = take_checker(alloc, checker) else {
        return call_number(CallStatus::Closed);
    };
    let status = opened.take(alloc, line, hit);
    put_checker(checker, opened);
    call_number(status)
}

/// No line follows: tells how many steps the trace has.
#[unsafe(no_mangle)]
pub extern "C" fn kigvarp_checker_end(
    alloc: Global,
    checker: &mut KigvarpChecker,
    hit: &mut HitTold,
    steps: &mut u32,
) -> u32
    requires { IsCheckerHandle checker.old }
    ensures handle { IsCheckerHandle checker.new }
    ensures does { Calls ((hit.new ≡ hit.old) × (steps.new ≡ steps.old))
        (CheckerEndsBy hit.new steps.new)
        checker.old.handle.checkers result checker.new.handle.checkers }
{
    let Some(mut opened) = take_checker(alloc, checker) else {
        return call_number(CallStatus::Closed);
    };
    let status = opened.end(hit, steps);
    put_checker(checker, opened);
    call_number(status)
}
