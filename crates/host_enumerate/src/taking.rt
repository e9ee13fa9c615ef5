//! A device is taken in: it gets the host's lock and a tag, and then what its kind asks for.
ghost use Rattle.std.specs.Prelude.{◌≡◌, ◌≢◌, ◌<◌, ◌≤◌, ◌+◌, ℕ, false, [], ◌∷◌, ◌++◌, length, IfOk, Some};
ghost use Rattle.fabric_script.specs.declared.ports.PortRef.{PortRef};
ghost use Rattle.maint_registers.specs.Devices.{is_switch};
ghost use Rattle.fabric_map.specs.Topology.{entered};
ghost use Rattle.host_enumerate.specs.Carrying.{CallWent};
ghost use Rattle.host_enumerate.specs.Asking.{IsAskable, IsApart, PassesOnce};
ghost use Rattle.host_enumerate.specs.Holding.{IsHolder};
ghost use Rattle.host_enumerate.specs.Underway.{met_as};
ghost use Rattle.host_enumerate.specs.TakingIn.{IsIdGiven, IsKindLeft, IsTakenIn};

use crate::asking::{read, write};
use crate::maint::{Maint, MaintEnd};
use crate::offsets::{COMPONENT_TAG, FEATURES, HOST_LOCK};
use crate::setting::{give_id, send_home};
use fabric_map::{Device, Kind, Path};
use std::alloc::Global;

/// The bit of the features that a switch has.
const SWITCH: u32 = 0x1000_0000;

/// No host holds the device.
const FREE: u32 = 0xffff;

/// What a host has numbered so far.
#[derive(Debug, Drop)]
pub(crate) struct Numbering {
    /// The host's own ID, which it writes to locks.
    pub(crate) host_id: u8,
    /// The ID that is given next, if it is not the host's.
    pub(crate) next_id: u8,
    /// The devices in the order in which they were met.
    pub(crate) devices: Vec<Device>,
}

/// Who holds a device.
#[derive(Clone, Copy, Debug)]
pub(crate) enum Holder {
    /// The host, which did not hold it before.
    Taken,
    /// The host, which has met it.
    Met,
    /// The host with this ID.
    Other(u16),
}

/// Takes the device on a path if nobody holds it. The host may hold it from before: then it has no
/// tag.
pub(crate) fn take<M: Maint>(
    alloc: Global,
    maint: &mut M,
    host_id: u8,
    path: &Path,
) -> Result<Holder, MaintEnd>
    requires whole { M.IsWhole maint.old }
    requires askable { (at : PortRef)
        × IsAskable (M.topology maint.old) (M.registers maint.old) host_id path.now at
        × ((M.registers maint.old at.node).lock ≡ 0xffff
        → IsApart (M.topology maint.old) path.now at.node) }
    ensures holder { IfOk result (λ holder. (at : PortRef)
        → entered (M.topology maint.old) path.now ≡ Some at
        → IsHolder host_id (M.registers maint.old) (M.registers maint.new) at.node holder) }
    ensures went { CallWent M.Maint maint.old maint.new result }
{
    let lock = read(alloc, maint, path, HOST_LOCK)?;
    if lock == FREE {
        write(alloc, maint, path, HOST_LOCK, u32::from(host_id))?;
        return Ok(Holder::Taken);
    }
    if lock != u32::from(host_id) {
        return Ok(Holder::Other(lock as u16));
    }
    let tag = read(alloc, maint, path, COMPONENT_TAG)?;
    if tag != 0 {
        return Ok(Holder::Met);
    }
    Ok(Holder::Taken)
}

/// Gives the next ID to the endpoint on a path. The host keeps its own.
fn number<M: Maint>(
    alloc: Global,
    maint: &mut M,
    numbering: &mut Numbering,
    path: &Path,
) -> Result<u8, MaintEnd>
    requires whole { M.IsWhole maint.old }
    requires askable { (at : PortRef)
        × IsAskable (M.topology maint.old) (M.registers maint.old) numbering.old.host_id path.now at
        × IsApart (M.topology maint.old) path.now at.node
        × (is_switch (M.registers maint.old at.node) ≡ false) }
    requires once { PassesOnce (M.topology maint.old) path.now }
    requires few { numbering.old.next_id < 254 }
    ensures id { IfOk result (λ id. (at : PortRef)
        → entered (M.topology maint.old) path.now ≡ Some at
        → IsIdGiven (M.topology maint.old) numbering.old.host_id numbering.old.next_id
        numbering.new.next_id (M.registers maint.old) (M.registers maint.new) path.now at id) }
    ensures host { numbering.new.host_id ≡ numbering.old.host_id }
    ensures devices { numbering.new.devices ≡ numbering.old.devices }
    ensures went { CallWent M.Maint maint.old maint.new result }
{
    if path.as_slice().is_empty() {
        return Ok(numbering.host_id);
    }
    let next = numbering.next_id;
    let id = if next == numbering.host_id {
        next + 1
    } else {
        next
    };
    give_id(alloc, maint, path, id)?;
    numbering.next_id = id + 1;
    Ok(id)
}

/// Does what the kind of the device on a path asks for.
fn prepare<M: Maint>(
    alloc: Global,
    maint: &mut M,
    numbering: &mut Numbering,
    path: &Path,
) -> Result<Kind, MaintEnd>
    requires whole { M.IsWhole maint.old }
    requires askable { (at : PortRef)
        × IsAskable (M.topology maint.old) (M.registers maint.old) numbering.old.host_id path.now at
        × IsApart (M.topology maint.old) path.now at.node }
    requires once { PassesOnce (M.topology maint.old) path.now }
    requires host { numbering.old.host_id < 255 }
    requires few { numbering.old.next_id < 254 }
    ensures kind { IfOk result (λ kind. (at : PortRef)
        → entered (M.topology maint.old) path.now ≡ Some at
        → IsKindLeft (M.topology maint.old) numbering.old.host_id numbering.old.next_id
        numbering.new.next_id (M.registers maint.old) (M.registers maint.new) path.now at kind) }
    ensures host { numbering.new.host_id ≡ numbering.old.host_id }
    ensures devices { numbering.new.devices ≡ numbering.old.devices }
    ensures went { CallWent M.Maint maint.old maint.new result }
{
    let features = read(alloc, maint, path, FEATURES)?;
    if features & SWITCH == 0 {
        let id = number(alloc, maint, numbering, path)?;
        return Ok(Kind::Endpoint { id });
    }
    send_home(alloc, maint, path, numbering.host_id)
}

/// Tags the device on a path, which the host holds, and takes it in.
pub(crate) fn take_in<M: Maint>(
    alloc: Global,
    maint: &mut M,
    numbering: &mut Numbering,
    path: &Path,
) -> Result<Kind, MaintEnd>
    requires whole { M.IsWhole maint.old }
    requires askable { (at : PortRef)
        × IsAskable (M.topology maint.old) (M.registers maint.old) numbering.old.host_id path.now at
        × IsApart (M.topology maint.old) path.now at.node }
    requires once { PassesOnce (M.topology maint.old) path.now }
    requires host { numbering.old.host_id < 255 }
    requires few { numbering.old.next_id < 254 }
    requires room { length numbering.old.devices.items ≤ 64 }
    ensures taken { IfOk result (λ kind. (at : PortRef)
        → entered (M.topology maint.old) path.now ≡ Some at
        → IsTakenIn (M.topology maint.old) numbering.old.host_id numbering.old.devices.items
        numbering.old.next_id numbering.new.next_id (M.registers maint.old) (M.registers maint.new)
        path.now at kind) }
    ensures devices { IfOk result (λ kind. numbering.new.devices.items
        ≡ numbering.old.devices.items
        ++ met_as numbering.old.devices.items kind path.now ∷ []) }
    ensures host { numbering.new.host_id ≡ numbering.old.host_id }
    ensures went { CallWent M.Maint maint.old maint.new result }
{
    let tag = numbering.devices.len() as u32 + 1;
    write(alloc, maint, path, COMPONENT_TAG, tag)?;
    let kind = prepare(alloc, maint, numbering, path)?;
    let path = path.copied();
    match numbering.devices.push(Device { tag, kind, path }) {
        Ok(()) => Ok(kind),
        Err(_) => Err(MaintEnd::NoMemory),
    }
}
