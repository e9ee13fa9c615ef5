//! What a walker has still to write, put at the end of a list in order.
ghost use Rattle.std.specs.Prelude.{◌≡◌, ◌≤◌, ◌++◌, ◌∷◌, [], OnOk};
ghost use Rattle.contest_machine.specs.Machine.{write, entry_set, route_pending, routes_to, cleared_below, home_set};

use crate::values::CLEARED;
use contest_machine::PendingWrite;
use fabric_map::{Device, Kind, Path, toward};
use host_enumerate::offsets::{DEFAULT_PORT, ROUTE_ENTRY, ROUTE_SELECT};
use std::alloc::AllocError;
use std::collections::LinkedList;

/// A write to a register of the device on a path.
pub(crate) fn push_write(
    todo: &mut LinkedList<PendingWrite>,
    path: &Path,
    offset: u32,
    value: u32,
) -> Result<(), AllocError>
    ensures { OnOk result (todo.new ≡ todo.old ++ write path.now offset value ∷ []) }
{
    let path = path.copied();
    todo.push_back(PendingWrite {
        path,
        offset,
        value,
    })?;
    Ok(())
}

/// The two writes that set an entry of a switch.
pub(crate) fn push_entry(
    todo: &mut LinkedList<PendingWrite>,
    path: &Path,
    id: u8,
    port: u8,
) -> Result<(), AllocError>
    ensures { OnOk result (todo.new ≡ todo.old ++ entry_set path.now id port) }
{
    push_write(todo, path, ROUTE_SELECT, u32::from(id))?;
    push_write(todo, path, ROUTE_ENTRY, u32::from(port))
}

/// The entry of an ID in each switch that a path passes is that by which the path goes on.
pub(crate) fn push_routes(
    todo: &mut LinkedList<PendingWrite>,
    devices: &[Device],
    path: &Path,
    id: u8,
) -> Result<(), AllocError>
    ensures { OnOk result (todo.new ≡ todo.old ++ routes_to devices.now path.now id) }
{
    for device in devices {
        push_route(todo, device, path, id)?;
    }
    Ok(())
}

/// The entry of an ID in one device, if it is a switch that a path passes.
fn push_route(
    todo: &mut LinkedList<PendingWrite>,
    device: &Device,
    path: &Path,
    id: u8,
) -> Result<(), AllocError>
    ensures { OnOk result (todo.new ≡ todo.old ++ route_pending path.now id device.now) }
{
    let Kind::Switch { .. } = device.kind else {
        return Ok(());
    };
    match toward(device.path.as_slice(), path.as_slice()) {
        Some(port) => push_entry(todo, &device.path, id, port),
        None => Ok(()),
    }
}

/// What a new switch gets: its port of entry for all destinations, and then the entries of the IDs
/// from 0 to 62, but the host's, are cleared and the host's is the port of entry.
pub(crate) fn push_home(
    todo: &mut LinkedList<PendingWrite>,
    path: &Path,
    host_id: u8,
    entry: u8,
) -> Result<(), AllocError>
    ensures { OnOk result (todo.new ≡ todo.old ++ home_set path.now host_id entry) }
{
    push_write(todo, path, DEFAULT_PORT, u32::from(entry))?;
    push_cleared(todo, path, host_id, 63)?;
    push_entry(todo, path, host_id, entry)
}

/// The entries of the IDs below a number, but the host's, are cleared.
fn push_cleared(
    todo: &mut LinkedList<PendingWrite>,
    path: &Path,
    host_id: u8,
    below: u8,
) -> Result<(), AllocError>
    ensures { OnOk result (todo.new ≡ todo.old ++ cleared_below path.now host_id below) }
{
    for id in 0..below {
        if id != host_id {
            push_entry(todo, path, id, CLEARED)?;
        }
    }
    Ok(())
}
