//! The lines of a map, and the line of a device that another host holds, told to an outbox.
ghost use Rattle.std.specs.Prelude.{◌++◌};
ghost use Rattle.std.specs.List.{flat_map};
ghost use Rattle.std.specs.Fmt.{decimal};
ghost use Rattle.rio_chars.specs.Written.{Writes};
ghost use Rattle.host_enumerate.specs.MapTexts.{spaced, port_behind_point, path_text, kind_text, device_text, entry_text, map_text, locked_text};

use fabric_map::{Device, Entry, Kind, Map};
use rio_chars::{Outbox, Sink};

/// Tells the lines of a map: `device TAG endpoint ID PATH` or `device TAG switch PORTS PATH` for
/// each device, and `entry TAG ID PORT` for each entry. A path is its ports with points between
/// them, and that of the host is `host`.
pub fn write_map<K: Sink>(outbox: &mut Outbox<K>, map: &Map)
    ensures { Writes outbox.old outbox.new
        (map_text map.now.devices.items map.now.entries.items) }
{
    write_devices(outbox, map.devices.as_slice());
    write_entries(outbox, map.entries.as_slice());
}

/// Tells the line `locked PATH ID` of the device on a path, whose lock is the ID of another host.
pub fn write_locked<K: Sink>(outbox: &mut Outbox<K>, path: &[u8], id: u16)
    ensures { Writes outbox.old outbox.new (locked_text path.now id) }
{
    outbox.write(b"locked ");
    write_path(outbox, path);
    outbox.write(b" ");
    outbox.write_decimal(u32::from(id));
    outbox.write(b"\n");
}

/// Tells the line of each device.
fn write_devices<K: Sink>(outbox: &mut Outbox<K>, devices: &[Device])
    ensures { Writes outbox.old outbox.new
        (flat_map device_text devices.now) }
{
    for device in devices {
        write_device(outbox, device);
    }
}

/// Tells the line of each entry.
fn write_entries<K: Sink>(outbox: &mut Outbox<K>, entries: &[Entry])
    ensures { Writes outbox.old outbox.new
        (flat_map entry_text entries.now) }
{
    for entry in entries {
        write_entry(outbox, entry);
    }
}

/// Tells the line of a device.
fn write_device<K: Sink>(outbox: &mut Outbox<K>, device: &Device)
    ensures { Writes outbox.old outbox.new (device_text device.now) }
{
    outbox.write(b"device ");
    outbox.write_decimal(device.tag);
    write_kind(outbox, device.kind);
    outbox.write(b" ");
    write_path(outbox, device.path.as_slice());
    outbox.write(b"\n");
}

/// Tells what a device is: the ID of an endpoint, or how many ports a switch has.
fn write_kind<K: Sink>(outbox: &mut Outbox<K>, kind: Kind)
    ensures { Writes outbox.old outbox.new (kind_text kind) }
{
    match kind {
        Kind::Endpoint { id } => {
            outbox.write(b" endpoint");
            write_number(outbox, id);
        }
        Kind::Switch { ports, .. } => {
            outbox.write(b" switch");
            write_number(outbox, ports);
        }
    }
}

/// Tells the line of an entry.
fn write_entry<K: Sink>(outbox: &mut Outbox<K>, entry: &Entry)
    ensures { Writes outbox.old outbox.new (entry_text entry.now) }
{
    outbox.write(b"entry ");
    outbox.write_decimal(entry.tag);
    write_number(outbox, entry.id);
    write_number(outbox, entry.port);
    outbox.write(b"\n");
}

/// Tells a number behind a space.
fn write_number<K: Sink>(outbox: &mut Outbox<K>, number: u8)
    ensures { Writes outbox.old outbox.new (spaced number) }
{
    outbox.write(b" ");
    outbox.write_decimal(u32::from(number));
}

/// Tells the ports of a path with points between them, or `host` if there are none.
fn write_path<K: Sink>(outbox: &mut Outbox<K>, ports: &[u8])
    ensures { Writes outbox.old outbox.new (path_text ports.now) }
{
    let [first, rest @ ..] = ports else {
        outbox.write(b"host");
        return;
    };
    outbox.write_decimal(u32::from(*first));
    write_ports(outbox, rest);
}

/// Tells each port behind a point.
fn write_ports<K: Sink>(outbox: &mut Outbox<K>, ports: &[u8])
    ensures { Writes outbox.old outbox.new
        (flat_map port_behind_point ports.now) }
{
    for port in ports {
        outbox.write(b".");
        outbox.write_decimal(u32::from(*port));
    }
}
