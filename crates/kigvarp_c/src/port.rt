//! A port that C holds: opened, closed, and taken out of its handle for a call.
ghost use Rattle.std.specs.Prelude.{◌≡◌, ◌∷◌, [], List, MatchOption};
ghost use Rattle.library_calls.specs.PortsSeen.{PortSeen};
ghost use Rattle.kigvarp_c.specs.Handles.{IsPortHandle, OpensPort};
ghost use Rattle.kigvarp_c.specs.Calls.{OpensBy, ClosesBy};

use crate::parts::Parts;
use crate::port_handle::PortHandle;
use library_calls::{CallStatus, OpenPort, call_number};
use std::alloc::Global;
use std::mem;

/// A port as C holds it: zeroed, it is closed.
#[repr(C)]
pub struct KigvarpPort {
    pub handle: PortHandle,
    pub open: usize,
}

/// Takes the port out of an open handle, which is closed then.
pub(crate) fn take_port(alloc: Global, port: &mut KigvarpPort) -> Option<Box<OpenPort, Global>>
    requires { IsPortHandle port.old }
    ensures taken { MatchOption result (port.old.handle.ports ≡ [])
        (λ opened. (others : List PortSeen) × (port.old.handle.ports ≡ opened.value ∷ others)) }
    ensures closed { port.new.handle.ports ≡ [] }
    ensures handle { IsPortHandle port.new }
{
    if port.open == 0 {
        return None;
    }
    port.open = 0;
    let handle = mem::replace(&mut port.handle, PortHandle::closed(alloc));
    Some(handle.into_parts().into_box())
}

/// Opens a handle with this port.
pub(crate) fn put_port(port: &mut KigvarpPort, opened: Box<OpenPort, Global>)
    ensures open { port.new.handle.ports ≡ opened.value ∷ [] }
    ensures handle { IsPortHandle port.new }
{
    port.handle = PortHandle::of_parts(Parts::of(opened));
    port.open = 1;
}

/// Opens a port of 4 to 30 buffers, which tells its free buffers if `tells` is not 0.
#[unsafe(no_mangle)]
pub extern "C" fn kigvarp_port_open(
    alloc: Global,
    port: &mut KigvarpPort,
    buffers: u8,
    tells: u8,
) -> u32
    requires { IsPortHandle port.old }
    ensures handle { IsPortHandle port.new }
    ensures opens { OpensBy (OpensPort buffers tells) port.old.handle.ports result
        port.new.handle.ports }
{
    if port.open != 0 {
        return call_number(CallStatus::Open);
    }
    if buffers < 4 || buffers > 30 {
        return call_number(CallStatus::Argument);
    }
    let Ok(opened) = OpenPort::new(alloc, buffers, tells != 0) else {
        return call_number(CallStatus::NoMemory);
    };
    let Ok(opened) = Box::new(alloc, opened) else {
        return call_number(CallStatus::NoMemory);
    };
    put_port(port, opened);
    call_number(CallStatus::Done)
}

/// Closes a port, and gives its memory back.
#[unsafe(no_mangle)]
pub extern "C" fn kigvarp_port_close(alloc: Global, port: &mut KigvarpPort) -> u32
    requires { IsPortHandle port.old }
    ensures handle { IsPortHandle port.new }
    ensures closes { ClosesBy port.old.handle.ports result port.new.handle.ports }
{
    match take_port(alloc, port) {
        Some(_) => call_number(CallStatus::Done),
        None => call_number(CallStatus::Closed),
    }
}
