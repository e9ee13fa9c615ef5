//! The registers of both kinds of device, by the table of `docs/registers.md`, whose values are
//! those of RapidIO Interconnect Specification 1.3 and this project's profile.
ghost use Rattle.std.specs.Prelude.{◌≡◌, false, IsTrue};
ghost use Rattle.maint_registers.specs.Devices.{is_switch};

use crate::Registers;
use std::process::Abort;

/// What an offset shows at first, and after a write of [`WRITTEN`] if it can be written.
#[derive(Clone, Copy)]
struct Row {
    offset: u32,
    first: u32,
    after: Option<u32>,
}

/// The value that is written to each offset.
const WRITTEN: u32 = 0x1234_5678;

const fn shown(offset: u32, first: u32) -> Row {
    Row {
        offset,
        first,
        after: None,
    }
}

const fn written(offset: u32, first: u32, after: u32) -> Row {
    Row {
        offset,
        first,
        after: Some(after),
    }
}

/// An endpoint with ID 5 and a link.
fn endpoint() -> Registers
    ensures { is_switch result ≡ false }
{
    Registers::endpoint(5, true)
}

/// A switch with four ports, of which 0 and 2 have links.
fn switch() -> Registers
    ensures { IsTrue (is_switch result) }
{
    Registers::switch(4, 0b0101)
}

/// What a new device shows and takes at an offset, asked on port 3: what its row says, or nothing
/// without a row.
fn has_row(rt: &impl Abort, mut registers: Registers, rows: &[Row], offset: u32) {
    let row = rows.iter().find(|row| row.offset == offset);
    let first = row.map(|row| row.first);
    let after = row.and_then(|row| row.after);
    assert_eq!(rt; registers.read(offset, 3), first, "{offset:x}");
    assert_eq!(rt;
        registers.write(offset, WRITTEN),
        after.is_some(),
        "{offset:x}"
    );
    assert_eq!(rt; registers.read(offset, 3), after.or(first), "{offset:x}");
}

#[test]
fn an_endpoint_has_its_column(rt: HostRuntime) {
    let rows = [
        shown(0x00, 0x0001_ffff),
        shown(0x0c, 0x0000_0100),
        shown(0x10, 0x0000_0018),
        written(0x60, 0x0005_ffff, 0x0034_ffff),
        written(0x68, 0x0000_ffff, 0x0000_5678),
        written(0x6c, 0x0000_0000, 0x1234_5678),
        shown(0x158, 0x0000_0002),
    ];
    for offset in 0..0x400 {
        has_row(&rt, endpoint(), &rows, offset);
    }
    has_row(&rt, endpoint(), &rows, 0xff_fffc);
}

#[test]
fn a_switch_has_its_column(rt: HostRuntime) {
    let rows = [
        shown(0x00, 0x0002_ffff),
        shown(0x0c, 0x0000_0100),
        shown(0x10, 0x1000_0118),
        shown(0x14, 0x0000_0403),
        shown(0x34, 0x0000_03ff),
        written(0x68, 0x0000_ffff, 0x0000_5678),
        written(0x6c, 0x0000_0000, 0x1234_5678),
        written(0x70, 0x0000_0000, 0x0000_0278),
        written(0x74, 0x0000_00ff, 0x0000_0078),
        written(0x78, 0x0000_00ff, 0x0000_0078),
        shown(0x158, 0x0000_0002),
        shown(0x178, 0x0000_0001),
        shown(0x198, 0x0000_0002),
        shown(0x1b8, 0x0000_0001),
    ];
    for offset in 0..0x400 {
        has_row(&rt, switch(), &rows, offset);
    }
    has_row(&rt, switch(), &rows, 0xff_fffc);
}

#[test]
fn a_link_shows_at_its_port(rt: HostRuntime) {
    let mut registers = Registers::switch(4, 0);
    for _ in 0..2 {
        registers.set_linked(2);
        for (offset, status) in [(0x158, 1), (0x178, 1), (0x198, 2), (0x1b8, 1)] {
            assert_eq!(rt; registers.read(offset, 0), Some(status), "{offset:x}");
        }
    }
}

#[test]
fn a_lock_is_taken_freed_or_left(rt: HostRuntime) {
    for (lock, written, after) in [
        (0xffff, 0xabcd_0009, 9),
        (9, 0x0000_0009, 0xffff),
        (9, 0x0000_0008, 9),
    ] {
        let mut registers = switch();
        registers.set_lock(lock);
        assert!(rt; registers.write(0x68, written));
        assert_eq!(rt; registers.lock(), after);
    }
}

#[test]
fn a_route_is_an_entry_or_the_default(rt: HostRuntime) {
    for (entry, default, port) in [
        (255, 255, None),
        (1, 3, Some(1)),
        (255, 3, Some(3)),
        (4, 3, None),
        (255, 4, None),
    ] {
        let mut registers = switch();
        registers.set_route(2, entry);
        registers.set_default(default);
        assert_eq!(rt; registers.next_port(2), port);
    }
}

#[test]
fn an_entry_is_written_for_the_destination_selected(rt: HostRuntime) {
    let mut registers = switch();
    assert!(rt; registers.write(0x70, 1000));
    assert!(rt; registers.write(0x74, 2));
    assert_eq!(rt; registers.next_port(1000), Some(2));
    assert_eq!(rt; registers.next_port(0), None);
}

#[test]
fn a_destination_has_the_entry_of_its_number(rt: HostRuntime) {
    let mut registers = switch();
    registers.set_default(3);
    registers.set_route(0, 0);
    registers.set_route(255, 1);
    registers.set_route(256, 2);
    registers.set_route(1023, 1);
    for (dest, port) in [
        (0, 0),
        (255, 1),
        (256, 2),
        (257, 3),
        (1023, 1),
        (1024, 3),
        (65535, 3),
    ] {
        assert_eq!(rt; registers.next_port(dest), Some(port), "{dest}");
    }
}

#[test]
fn a_16_bit_id_is_set_and_not_written(rt: HostRuntime) {
    let mut registers = endpoint();
    assert_eq!(rt; registers.large_id(), 0xffff);
    registers.set_large(0x1234);
    assert!(rt; registers.write(0x60, 0x00ab_cdef));
    assert_eq!(rt; registers.read(0x60, 0), Some(0x00ab_1234));
    assert_eq!(rt; registers.large_id(), 0x1234);
    assert_eq!(rt; switch().large_id(), 0);
}

#[test]
fn an_endpoint_routes_nothing(rt: HostRuntime) {
    assert!(rt; !endpoint().is_switch());
    assert_eq!(rt; endpoint().ports(), 1);
    assert_eq!(rt; endpoint().base_id(), 5);
    assert_eq!(rt; endpoint().next_port(5), None);
}

/// What a device shows at the offsets that standard hosts look for.
fn block(registers: &Registers) -> [Option<u32>; 3] {
    [0x18, 0x1c, 0x100].map(|offset| registers.read(offset, 0))
}

#[test]
fn a_device_shows_what_standard_hosts_look_for_if_asked(rt: HostRuntime) {
    let first = [Some(0x0000_f000), Some(0x0000_f000), Some(0x0000_0001)];
    let second = [Some(0), Some(0), Some(0x0000_0003)];
    for (mut registers, shown) in [(endpoint(), first), (switch(), second)] {
        assert_eq!(rt; block(&registers), [None; 3]);
        registers.show_standard();
        assert_eq!(rt; block(&registers), shown);
        assert!(rt; !registers.write(0x100, WRITTEN));
    }
}
