//! What a host writes to a device that it takes in.
ghost use Rattle.std.specs.Prelude.{◌≡◌, ◌≢◌, ◌<◌, ◌≤◌, ◌+◌, ℕ, true, false, [], ◌++◌, length, OnOk, IfOk, Some};
ghost use Rattle.fabric_script.specs.declared.ports.PortRef.{PortRef};
ghost use Rattle.maint_registers.specs.Devices as registers;
ghost use Rattle.maint_registers.specs.Devices.{Registers, is_switch};
ghost use Rattle.fabric_map.specs.Topology.{entered};
ghost use Rattle.host_enumerate.specs.Carrying.{CallWent};
ghost use Rattle.host_enumerate.specs.Asking.{IsAskable, IsApart, PassesOnce, Becomes};
ghost use Rattle.host_enumerate.specs.Setting.{with_entry, AreRouted, HasNewId, IsCleared, SwitchIsSetUp};

use crate::asking::{read, write};
use crate::maint::{Maint, MaintEnd};
use crate::offsets::{BASE_ID, DEFAULT_PORT, PORT_INFORMATION, ROUTE_ENTRY, ROUTE_SELECT};
use fabric_map::{Kind, Path};
use std::alloc::Global;

/// An entry that names no port, so that the default port counts (this project's profile).
const NO_ENTRY: u8 = 255;

/// IDs below this one may be given in a fabric with a switch.
const GIVEN_IDS: u8 = 63;

/// Sets the entry of a destination in the table of the switch on a path.
pub(crate) fn set_entry<M: Maint>(
    alloc: Global,
    maint: &mut M,
    path: &Path,
    id: u8,
    port: u8,
) -> Result<(), MaintEnd>
    requires whole { M.IsWhole maint.old }
    requires askable { (host_id : ℕ) × (at : PortRef)
        × IsAskable (M.topology maint.old) (M.registers maint.old) host_id path.now at
        × IsApart (M.topology maint.old) path.now at.node
        × (is_switch (M.registers maint.old at.node) ≡ true) }
    ensures registers { OnOk result ((at : PortRef)
        → entered (M.topology maint.old) path.now ≡ Some at
        → Becomes (M.registers maint.old) (M.registers maint.new) at.node
        (with_entry (M.registers maint.old at.node) id port)) }
    ensures went { CallWent M.Maint maint.old maint.new result }
{
    write(alloc, maint, path, ROUTE_SELECT, u32::from(id))?;
    write(alloc, maint, path, ROUTE_ENTRY, u32::from(port))
}

/// Sets the entry of an ID to the path's port in each switch from the one on this path on.
fn set_entries<M: Maint>(
    alloc: Global,
    maint: &mut M,
    front: &Path,
    rest: &[u8],
    id: u8,
) -> Result<(), MaintEnd>
    requires whole { M.IsWhole maint.old }
    requires front { front.now ≢ [] }
    requires askable { (host_id : ℕ) × (at : PortRef)
        × IsAskable (M.topology maint.old) (M.registers maint.old) host_id
        (front.now ++ rest.now) at
        × (host_id ≢ id) }
    requires once { PassesOnce (M.topology maint.old) (front.now ++ rest.now) }
    requires id { id < 255 }
    ensures registers { OnOk result
        (AreRouted (M.topology maint.old) (M.registers maint.old) (M.registers maint.new) front.now
        rest.now id) }
    ensures went { CallWent M.Maint maint.old maint.new result }
{
    let [port, rest @ ..] = rest else {
        return Ok(());
    };
    set_entry(alloc, maint, front, id, *port)?;
    let next = front.onward(*port);
    set_entries(alloc, maint, &next, rest, id)
}

/// Gives an ID to the endpoint on a path, and lets each switch on the way send to it.
pub(crate) fn give_id<M: Maint>(
    alloc: Global,
    maint: &mut M,
    path: &Path,
    id: u8,
) -> Result<(), MaintEnd>
    requires whole { M.IsWhole maint.old }
    requires askable { (host_id : ℕ) × (at : PortRef)
        × IsAskable (M.topology maint.old) (M.registers maint.old) host_id path.now at
        × IsApart (M.topology maint.old) path.now at.node
        × (is_switch (M.registers maint.old at.node) ≡ false) × (host_id ≢ id) }
    requires away { path.now ≢ [] }
    requires once { PassesOnce (M.topology maint.old) path.now }
    requires id { id < 255 }
    ensures registers { OnOk result ((at : PortRef)
        → entered (M.topology maint.old) path.now ≡ Some at
        → HasNewId (M.topology maint.old) (M.registers maint.old) (M.registers maint.new) path.now
        at.node id) }
    ensures went { CallWent M.Maint maint.old maint.new result }
{
    write(alloc, maint, path, BASE_ID, u32::from(id) << 16)?;
    let [first, rest @ ..] = path.as_slice() else {
        return Ok(());
    };
    let front = Path::of_host().onward(*first);
    set_entries(alloc, maint, &front, rest, id)
}

/// Clears the entries of the IDs that may be given, other than the host's, in the switch on a path.
fn clear_entries<M: Maint>(
    alloc: Global,
    maint: &mut M,
    path: &Path,
    host_id: u8,
) -> Result<(), MaintEnd>
    requires whole { M.IsWhole maint.old }
    requires askable { (at : PortRef)
        × IsAskable (M.topology maint.old) (M.registers maint.old) host_id path.now at
        × IsApart (M.topology maint.old) path.now at.node
        × (is_switch (M.registers maint.old at.node) ≡ true) }
    ensures registers { OnOk result ((at : PortRef)
        → entered (M.topology maint.old) path.now ≡ Some at
        → (held : Registers)
        × Becomes (M.registers maint.old) (M.registers maint.new) at.node held
        × IsCleared host_id 63 (M.registers maint.old at.node) held) }
    ensures went { CallWent M.Maint maint.old maint.new result }
{
    for id in 0..GIVEN_IDS {
        if id == host_id {
            continue;
        }
        set_entry(alloc, maint, path, id, NO_ENTRY)?;
    }
    Ok(())
}

/// Lets the switch on a path send everything home, by the port on which it was asked.
pub(crate) fn send_home<M: Maint>(
    alloc: Global,
    maint: &mut M,
    path: &Path,
    host_id: u8,
) -> Result<Kind, MaintEnd>
    requires whole { M.IsWhole maint.old }
    requires askable { (at : PortRef)
        × IsAskable (M.topology maint.old) (M.registers maint.old) host_id path.now at
        × IsApart (M.topology maint.old) path.now at.node
        × (is_switch (M.registers maint.old at.node) ≡ true) }
    requires host { host_id < 255 }
    ensures kind { IfOk result (λ kind. (at : PortRef)
        → entered (M.topology maint.old) path.now ≡ Some at
        → kind ≡ Kind.Switch (M.registers maint.old at.node).ports at.port) }
    ensures registers { OnOk result ((at : PortRef)
        → entered (M.topology maint.old) path.now ≡ Some at
        → (held : Registers)
        × Becomes (M.registers maint.old) (M.registers maint.new) at.node held
        × SwitchIsSetUp host_id at.port (M.registers maint.old at.node) held) }
    ensures went { CallWent M.Maint maint.old maint.new result }
{
    let information = read(alloc, maint, path, PORT_INFORMATION)?;
    let ports = (information / 0x100) as u8;
    let entry = (information % 0x100) as u8;
    write(alloc, maint, path, DEFAULT_PORT, u32::from(entry))?;
    clear_entries(alloc, maint, path, host_id)?;
    set_entry(alloc, maint, path, host_id, entry)?;
    Ok(Kind::Switch { ports, entry })
}
