//! The entries of a map, by its devices.
ghost use Rattle.std.specs.Prelude.{◌≡◌, ◌++◌, OnOk, IfOk};
ghost use Rattle.fabric_map.specs.Numbered.{device_has_id, is_given, toward, port_toward, given_ids, entries_at, entries_of};

use crate::map::{Device, Entry, Kind};
use std::alloc::{AllocError, Global};

/// Whether a device is the endpoint with an ID.
fn has_id(device: &Device, id: u8) -> bool
    ensures { result ≡ device_has_id id device.now }
{
    match device.kind {
        Kind::Endpoint { id: given } => given == id,
        Kind::Switch { .. } => false,
    }
}

/// Whether one of the devices has an ID.
fn is_given(devices: &[Device], id: u8) -> bool
    ensures { result ≡ is_given devices.now id }
{
    devices.iter().any(|device| has_id(device, id))
}

/// The port by which a path goes on behind another, if it begins with that.
pub fn toward(front: &[u8], path: &[u8]) -> Option<u8>
    ensures { result ≡ toward front.now path.now }
{
    let [port, rest @ ..] = path else {
        return None;
    };
    let [first, others @ ..] = front else {
        return Some(*port);
    };
    if first == port {
        toward(others, rest)
    } else {
        None
    }
}

/// The port by which a path leads to the endpoint with an ID, if it leads there.
fn port_toward(devices: &[Device], path: &[u8], id: u8) -> Option<u8>
    ensures { result ≡ port_toward devices.now path.now id }
{
    let [device, rest @ ..] = devices else {
        return None;
    };
    if has_id(device, id) {
        toward(path, device.path.as_slice())
    } else {
        port_toward(rest, path, id)
    }
}

/// Appends the entries of one device.
fn push_entries(
    entries: &mut Vec<Entry>,
    devices: &[Device],
    device: &Device,
) -> Result<(), AllocError>
    ensures { OnOk result (entries.new.items
        ≡ entries.old.items ++ entries_at devices.now (given_ids devices.now) device.now) }
{
    let Kind::Switch { entry, .. } = device.kind else {
        return Ok(());
    };
    for id in 0..255 {
        if is_given(devices, id) {
            let port = port_toward(devices, device.path.as_slice(), id).unwrap_or(entry);
            entries.push(Entry {
                tag: device.tag,
                id,
                port,
            })?;
        }
    }
    Ok(())
}

/// The entries of a map with these devices: one for each switch and each ID that is given, by tag
/// and then by ID.
pub fn entries_of(alloc: Global, devices: &[Device]) -> Result<Vec<Entry>, AllocError>
    ensures { IfOk result (λ entries. entries.items ≡ entries_of devices.now) }
{
    let mut entries = Vec::new(alloc);
    for device in devices {
        push_entries(&mut entries, devices, device)?;
    }
    Ok(entries)
}
