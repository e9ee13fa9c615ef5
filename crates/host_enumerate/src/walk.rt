//! The walk of a host through its fabric.
ghost use Rattle.std.specs.Prelude.{◌≡◌, ◌≢◌, ◌<◌, ◌≤◌, ◌+◌, ℕ, [], length, OnOk, OnErr, IfOk, IfErr};
ghost use Rattle.fabric_script.specs.declared.ports.PortRef.{PortRef};
ghost use Rattle.fabric_map.specs.Walked.{onward, after_all_paths};
ghost use Rattle.fabric_map.specs.Routes.{AllRegisters};
ghost use Rattle.fabric_map.specs.Ways.{IsOpened};
ghost use Rattle.fabric_map.specs.Locked.{IsNext};
ghost use Rattle.fabric_map.specs.Numbered.{paths_of};
ghost use Rattle.host_enumerate.specs.Asking.{IsAskable};
ghost use Rattle.host_enumerate.specs.Underway.{AreUntagged, IsUnderway};
ghost use Rattle.host_enumerate.specs.TakingIn.{IsTried};
ghost use Rattle.host_enumerate.specs.Founds.{HasFound, IsFoundBehind, tried_after};
ghost use Rattle.host_enumerate.specs.Ends.{IsEnded};
ghost use Rattle.host_enumerate.specs.Enumerated.{IsEnumerated};
ghost use Rattle.host_enumerate.specs.Carrying.{IsNumbering, WalkWent};

use crate::asking::read;
use crate::ends::EnumEnd;
use crate::maint::Maint;
use crate::offsets::{ALONG_PATH, BASE_ID, FIRST_STATUS, STATUS_STEP};
use crate::setting::set_entry;
use crate::taking::{Holder, Numbering, take, take_in};
use fabric_map::{Device, Kind, Map, Path, entries_of};
use std::alloc::Global;

/// The status of a port with a link (this project's profile).
const LINKED: u32 = 2;

/// Tries a path: takes in the device behind it if it was not met before.
fn meet<M: Maint>(
    alloc: Global,
    maint: &mut M,
    numbering: &mut Numbering,
    path: &Path,
) -> Result<Option<Kind>, EnumEnd>
    requires whole { M.IsWhole maint.old }
    requires underway { (before : AllRegisters)
        × IsNumbering M.Maint maint.old numbering.old path.now before }
    requires begins { path.now ≡ [] → numbering.old.next_id ≡ 0 }
    requires next { IsNext (paths_of numbering.old.devices.items) path.now }
    requires askable { (at : PortRef)
        × IsAskable (M.topology maint.old) (M.registers maint.old) numbering.old.host_id
        path.now at }
    ensures tried { IfOk result (λ kind. (before : AllRegisters)
        → IsNumbering M.Maint maint.old numbering.old path.now before
        → IsTried M.Maint maint.new numbering.old numbering.new path.now before kind) }
    ensures opened { OnOk result
        (IsOpened (M.topology maint.new) (M.registers maint.new) numbering.new.host_id path.now) }
    ensures went { WalkWent M.Maint maint.old maint.new
        (IsNumbering M.Maint maint.old numbering.old path.now) result }
    ensures host { numbering.new.host_id ≡ numbering.old.host_id }
{
    match take(alloc, maint, numbering.host_id, path)? {
        Holder::Taken => {
            let kind = take_in(alloc, maint, numbering, path)?;
            Ok(Some(kind))
        }
        Holder::Met => Ok(None),
        Holder::Other(id) => Err(EnumEnd::LockedBy {
            path: path.copied(),
            id,
        }),
    }
}

/// A switch that was taken in.
#[derive(Debug, Drop)]
struct Found {
    path: Path,
    ports: u8,
    entry: u8,
}

/// Tries the device behind a port of a switch, and returns it if it is a switch that was not met
/// before.
fn look_behind<M: Maint>(
    alloc: Global,
    maint: &mut M,
    numbering: &mut Numbering,
    switch: &Found,
    port: u8,
) -> Result<Option<Found>, EnumEnd>
    requires whole { M.IsWhole maint.old }
    requires found { HasFound M.Maint maint.old numbering.old switch.now }
    requires underway { (before : AllRegisters)
        × IsNumbering M.Maint maint.old numbering.old (onward switch.now.path port) before }
    requires below { port < switch.now.ports }
    requires apart { port ≢ switch.now.entry }
    ensures looked { IfOk result (λ found. (before : AllRegisters)
        → IsNumbering M.Maint maint.old numbering.old (onward switch.now.path port) before
        → IsNumbering M.Maint maint.new numbering.new (tried_after switch.now.path port found)
        before) }
    ensures found { IfOk result (IsFoundBehind M.Maint maint.new numbering.old numbering.new
        switch.now port) }
    ensures went { WalkWent M.Maint maint.old maint.new
        (IsNumbering M.Maint maint.old numbering.old (onward switch.now.path port)) result }
    ensures host { numbering.new.host_id ≡ numbering.old.host_id }
    ensures longer { OnOk result
        (length numbering.old.devices.items ≤ length numbering.new.devices.items) }
{
    let offset = FIRST_STATUS + STATUS_STEP * u32::from(port);
    let status = read(alloc, maint, &switch.path, offset)?;
    if status != LINKED {
        return Ok(None);
    }
    set_entry(alloc, maint, &switch.path, ALONG_PATH, port)?;
    let path = switch.path.onward(port);
    let Some(kind) = meet(alloc, maint, numbering, &path)? else {
        return Ok(None);
    };
    let Kind::Switch { ports, entry } = kind else {
        return Ok(None);
    };
    Ok(Some(Found { path, ports, entry }))
}

/// Tries whatever is behind the ports of a switch, and behind what is found there.
fn explore<M: Maint>(
    alloc: Global,
    maint: &mut M,
    numbering: &mut Numbering,
    switch: &Found,
) -> Result<(), EnumEnd>
    requires whole { M.IsWhole maint.old }
    requires found { HasFound M.Maint maint.old numbering.old switch.now }
    requires underway { (before : AllRegisters)
        × IsNumbering M.Maint maint.old numbering.old (onward switch.now.path 0) before }
    ensures tried { OnOk result ((before : AllRegisters)
        → IsNumbering M.Maint maint.old numbering.old (onward switch.now.path 0) before
        → IsNumbering M.Maint maint.new numbering.new (onward switch.now.path switch.now.ports)
        before) }
    ensures found { OnOk result (HasFound M.Maint maint.new numbering.new switch.now) }
    ensures went { WalkWent M.Maint maint.old maint.new
        (IsNumbering M.Maint maint.old numbering.old (onward switch.now.path 0)) result }
    ensures host { numbering.new.host_id ≡ numbering.old.host_id }
    ensures longer { OnOk result
        (length numbering.old.devices.items ≤ length numbering.new.devices.items) }
{
    for port in 0..switch.ports {
        if port == switch.entry {
            continue;
        }
        let Some(found) = look_behind(alloc, maint, numbering, switch, port)? else {
            continue;
        };
        explore(alloc, maint, numbering, &found)?;
    }
    Ok(())
}

/// Takes in the host, its neighbour, and whatever is behind that.
fn number_devices<M: Maint>(
    alloc: Global,
    maint: &mut M,
    host_id: u8,
) -> Result<Vec<Device>, EnumEnd>
    requires whole { M.IsWhole maint.old }
    requires begun { (before : AllRegisters)
        × IsUnderway (M.topology maint.old) before (M.registers maint.old) host_id [] 0 [] }
    ensures numbered { IfOk result (λ devices. (before : AllRegisters)
        → IsUnderway (M.topology maint.old) before (M.registers maint.old) host_id [] 0 []
        → (next : ℕ) × IsUnderway (M.topology maint.new) before (M.registers maint.new) host_id
        devices.items next after_all_paths) }
    ensures went { WalkWent M.Maint maint.old maint.new
        (λ before. IsUnderway (M.topology maint.old) before (M.registers maint.old) host_id []
        0 []) result }
{
    let mut numbering = Numbering {
        host_id,
        next_id: 0,
        devices: Vec::new(alloc),
    };
    let host = Path::of_host();
    meet(alloc, maint, &mut numbering, &host)?;
    let path = host.onward(0);
    let Some(kind) = meet(alloc, maint, &mut numbering, &path)? else {
        return Ok(numbering.devices);
    };
    let Kind::Switch { ports, entry } = kind else {
        return Ok(numbering.devices);
    };
    let switch = Found { path, ports, entry };
    explore(alloc, maint, &mut numbering, &switch)?;
    Ok(numbering.devices)
}

/// Numbers a fabric: locks and tags each device that is reached, gives an ID to each endpoint, and
/// sets the tables of the switches. It begins with no device that has a tag, and a host that has an
/// ID. `Err` comes only with the cause that it names, and with LockedBy the registers of devices
/// that were met are set as far as the walk came (RapidIO Interconnect Specification 1.3, Part 3,
/// enumeration; the order of devices and IDs is this project's profile).
pub fn enumerate<M: Maint>(alloc: Global, maint: &mut M) -> Result<Map, EnumEnd>
    requires whole { M.IsWhole maint.old }
    requires untagged { AreUntagged (M.topology maint.old) (M.registers maint.old) }
    requires host { (M.registers maint.old (M.topology maint.old).host).base_id < 255 }
    ensures enumerated { IsEnumerated (M.topology maint.old) (M.registers maint.old)
        (M.registers maint.new) result }
    ensures end { IfErr result (IsEnded (M.undetected maint.old, M.undetected maint.new)
        (M.faults maint.old, M.faults maint.new) (M.IsMet maint.new) (λ path id. M.IsWhole maint.new
        × ((origin : _) → M.Follows origin maint.old → M.Follows origin maint.new))) }
    ensures topology { M.topology maint.new ≡ M.topology maint.old }
    ensures follows { OnOk result ((origin : _) → M.Follows origin maint.old
        → M.Follows origin maint.new) }
    ensures whole { OnOk result (M.IsWhole maint.new) }
    ensures leaves { OnErr result ((origin : _) → M.Follows origin maint.old
        → M.Leaves origin maint.new) }
    ensures undetected { OnOk result (M.undetected maint.new ≡ M.undetected maint.old) }
    ensures faults { OnOk result (M.faults maint.new ≡ M.faults maint.old) }
{
    let own_id = read(alloc, maint, &Path::of_host(), BASE_ID)?;
    let devices = number_devices(alloc, maint, (own_id >> 16) as u8)?;
    let entries = entries_of(alloc, devices.as_slice())?;
    Ok(Map { devices, entries })
}
