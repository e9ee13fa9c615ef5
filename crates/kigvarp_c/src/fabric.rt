//! A fabric, for C.
ghost use Rattle.std.specs.Prelude.{◌≡◌, ◌∷◌, [], List, MatchOption, IfSome};
ghost use Rattle.library_calls.specs.FabricsSeen.{FabricSeen, FabricHolds, FabricTextTaken};
ghost use Rattle.library_calls.specs.FabricLines.{FabricLineDid};
ghost use Rattle.library_calls.specs.FabricAsks.{FabricAskDid};
ghost use Rattle.library_calls.specs.FabricOwn.{FabricOwnDid};
ghost use Rattle.kigvarp_c.specs.Handles.{IsFabricHandle, OpensFabric};
ghost use Rattle.kigvarp_c.specs.Calls.{Calls, Always, OpensBy, ClosesBy};

use crate::fabric_handle::FabricHandle;
use crate::parts::Parts;
use library_calls::{CallStatus, OpenFabric, OwnAccess, RegisterAsk, RegisterReply, call_number};
use std::alloc::Global;
use std::mem;

/// A fabric as C holds it: zeroed, it is closed.
#[repr(C)]
pub struct KigvarpFabric {
    pub handle: FabricHandle,
    pub open: usize,
}

/// Takes the fabric out of an open handle, which is closed then.
fn take_fabric(alloc: Global, fabric: &mut KigvarpFabric) -> Option<Box<OpenFabric, Global>>
    requires { IsFabricHandle fabric.old }
    ensures taken { MatchOption result (fabric.old.handle.fabrics ≡ [])
        (λ opened. (others : List FabricSeen)
        × (fabric.old.handle.fabrics ≡ opened.value ∷ others)) }
    ensures holds { IfSome result (λ opened. FabricHolds opened.value) }
    ensures closed { fabric.new.handle.fabrics ≡ [] }
    ensures handle { IsFabricHandle fabric.new }
{
    if fabric.open == 0 {
        return None;
    }
    fabric.open = 0;
    let handle = mem::replace(&mut fabric.handle, FabricHandle::closed(alloc));
    Some(handle.into_parts().into_box())
}

/// Opens a handle with this fabric.
fn put_fabric(fabric: &mut KigvarpFabric, opened: Box<OpenFabric, Global>)
    requires { FabricHolds opened.value }
    ensures open { fabric.new.handle.fabrics ≡ opened.value ∷ [] }
    ensures handle { IsFabricHandle fabric.new }
{
    fabric.handle = FabricHandle::of_parts(Parts::of(opened));
    fabric.open = 1;
}

/// Opens a fabric that was given no line.
#[unsafe(no_mangle)]
pub extern "C" fn kigvarp_fabric_open(alloc: Global, fabric: &mut KigvarpFabric) -> u32
    requires { IsFabricHandle fabric.old }
    ensures handle { IsFabricHandle fabric.new }
    ensures opens { OpensBy OpensFabric fabric.old.handle.fabrics result
        fabric.new.handle.fabrics }
{
    if fabric.open != 0 {
        return call_number(CallStatus::Open);
    }
    let Ok(opened) = OpenFabric::new(alloc) else {
        return call_number(CallStatus::NoMemory);
    };
    let Ok(opened) = Box::new(alloc, opened) else {
        return call_number(CallStatus::NoMemory);
    };
    put_fabric(fabric, opened);
    call_number(CallStatus::Done)
}

/// Closes a fabric, and gives its memory back.
#[unsafe(no_mangle)]
pub extern "C" fn kigvarp_fabric_close(alloc: Global, fabric: &mut KigvarpFabric) -> u32
    requires { IsFabricHandle fabric.old }
    ensures handle { IsFabricHandle fabric.new }
    ensures closes { ClosesBy fabric.old.handle.fabrics result fabric.new.handle.fabrics }
{
    match take_fabric(alloc, fabric) {
        Some(_) => call_number(CallStatus::Done),
        None => call_number(CallStatus::Closed),
    }
}

/// Answers a line of `rio_live`.
#[unsafe(no_mangle)]
pub extern "C" fn kigvarp_fabric_line(alloc: Global, fabric: &mut KigvarpFabric, line: &[u8]) -> u32
    requires { IsFabricHandle fabric.old }
    ensures handle { IsFabricHandle fabric.new }
    ensures does { Calls (Unit {0}) (FabricLineDid line.now)
        fabric.old.handle.fabrics result fabric.new.handle.fabrics }
{
    let Some(mut opened) = take_fabric(alloc, fabric) else {
        return call_number(CallStatus::Closed);
    };
    let status = opened.line(alloc, line);
    put_fabric(fabric, opened);
    call_number(status)
}

/// Asks for a register by numbers, as the line `ask` of this host does, and tells what came of it.
#[unsafe(no_mangle)]
pub extern "C" fn kigvarp_fabric_ask(
    alloc: Global,
    fabric: &mut KigvarpFabric,
    host: &[u8],
    ask: &RegisterAsk,
    told: &mut RegisterReply,
) -> u32
    requires { IsFabricHandle fabric.old }
    ensures handle { IsFabricHandle fabric.new }
    ensures does { Calls (told.new ≡ told.old) (FabricAskDid host.now ask.now told.new)
        fabric.old.handle.fabrics result fabric.new.handle.fabrics }
{
    let Some(mut opened) = take_fabric(alloc, fabric) else {
        return call_number(CallStatus::Closed);
    };
    let status = opened.ask(alloc, host, ask, told);
    put_fabric(fabric, opened);
    call_number(status)
}

/// Has the node of this name read or write one of its own registers without a packet, and tells
/// what came of it.
#[unsafe(no_mangle)]
pub extern "C" fn kigvarp_fabric_own(
    alloc: Global,
    fabric: &mut KigvarpFabric,
    name: &[u8],
    access: &OwnAccess,
    told: &mut RegisterReply,
) -> u32
    requires { IsFabricHandle fabric.old }
    ensures handle { IsFabricHandle fabric.new }
    ensures does { Calls (told.new ≡ told.old) (FabricOwnDid name.now access.now told.new)
        fabric.old.handle.fabrics result fabric.new.handle.fabrics }
{
    let Some(mut opened) = take_fabric(alloc, fabric) else {
        return call_number(CallStatus::Closed);
    };
    let status = opened.own(alloc, name, access, told);
    put_fabric(fabric, opened);
    call_number(status)
}

/// Takes what was told and is not taken yet, as much of it as has room: `count` is how many bytes.
#[unsafe(no_mangle)]
pub extern "C" fn kigvarp_fabric_text(
    alloc: Global,
    fabric: &mut KigvarpFabric,
    room: &mut [u8],
    count: &mut usize,
) -> u32
    requires { IsFabricHandle fabric.old }
    ensures handle { IsFabricHandle fabric.new }
    ensures does { Calls ((room.new ≡ room.old) × (count.new ≡ 0))
        (Always (FabricTextTaken room.old room.new count.new))
        fabric.old.handle.fabrics result fabric.new.handle.fabrics }
{
    *count = 0;
    let Some(mut opened) = take_fabric(alloc, fabric) else {
        return call_number(CallStatus::Closed);
    };
    *count = opened.text(room);
    put_fabric(fabric, opened);
    call_number(CallStatus::Done)
}
