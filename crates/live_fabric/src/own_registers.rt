//! What devices show and change of their registers without a packet.
ghost use Rattle.std.specs.Prelude.{◌≡◌, ◌↔◌, Option, IsTrue, IsSome, IfOk, OnOk, slice_get};
ghost use Rattle.maint_registers.specs.Devices.{Registers};
ghost use Rattle.fabric_model.specs.Network.{IsEndpoint};
ghost use Rattle.fabric_ports.specs.OwnRegisters.{with_standard};
ghost use Rattle.live_fabric.specs.Lines.{Taken, seen_so_far, taken_anew};
ghost use Rattle.live_fabric.specs.Holding.{LiveHolds};
ghost use Rattle.live_fabric.specs.OwnRegisters.{standard_everywhere, value_said, write_said, OwnRead, OwnWrites};

use crate::asks::RegisterSaid;
use crate::live::Live;
use rio_chars::NoMemory;
use std::alloc::Global;

/// The status of a response that does not do what was asked.
const NOT_DONE: u8 = 7;

impl Live {
    /// Has a device show, from now on, what standard hosts look for.
    pub(crate) fn show_standard(&mut self, alloc: Global, node: u8) -> Result<(), NoMemory>
        requires { (taken : Taken) × LiveHolds self.old taken
            × IsSome (slice_get (seen_so_far taken).network.registers node) }
        ensures { OnOk result ((taken : Taken) → LiveHolds self.old taken
            → LiveHolds self.new (taken_anew taken (with_standard node (seen_so_far taken)))) }
    {
        let mut fabric = self.take_fabric(alloc)?;
        fabric.show_standard(node);
        self.put_fabric(fabric);
        Ok(())
    }

    /// Has every device show it.
    pub(crate) fn show_all_standard(&mut self, alloc: Global) -> Result<(), NoMemory>
        requires { (taken : Taken) × LiveHolds self.old taken }
        ensures { OnOk result ((taken : Taken) → LiveHolds self.old taken
            → LiveHolds self.new (taken_anew taken (standard_everywhere (seen_so_far taken)))) }
    {
        let mut fabric = self.take_fabric(alloc)?;
        fabric.show_all_standard();
        self.put_fabric(fabric);
        Ok(())
    }

    /// Reads a register of an endpoint without a packet, and tells it as a response does.
    pub(crate) fn own_read(
        &mut self,
        alloc: Global,
        node: u8,
        offset: u32,
    ) -> Result<RegisterSaid, NoMemory>
        requires { (taken : Taken) × LiveHolds self.old taken
            × IsEndpoint (seen_so_far taken).network node }
        ensures { IfOk result (λ said. (taken : Taken) → LiveHolds self.old taken
            → IsEndpoint (seen_so_far taken).network node
            → (end : Taken) × OwnRead taken node offset said end × LiveHolds self.new end) }
    {
        let fabric = self.take_fabric(alloc)?;
        let value = fabric.register_read(node, offset);
        self.put_fabric(fabric);
        Ok(value_said(value))
    }

    /// Writes one.
    pub(crate) fn own_write(
        &mut self,
        alloc: Global,
        node: u8,
        offset: u32,
        value: u32,
    ) -> Result<RegisterSaid, NoMemory>
        requires { (taken : Taken) × LiveHolds self.old taken
            × IsEndpoint (seen_so_far taken).network node }
        ensures { IfOk result (λ said. (taken : Taken) → LiveHolds self.old taken
            → IsEndpoint (seen_so_far taken).network node
            → (end : Taken) × OwnWrites taken node offset value said end × LiveHolds self.new end) }
    {
        let mut fabric = self.take_fabric(alloc)?;
        let written = fabric.register_write(node, offset, value);
        self.put_fabric(fabric);
        Ok(write_said(written))
    }
}

/// What is said of a register that was read: its value, or that none stands there.
fn value_said(value: Option<u32>) -> RegisterSaid
    ensures { result ≡ value_said value }
{
    match value {
        Some(value) => RegisterSaid::Value(value),
        None => RegisterSaid::Failed(NOT_DONE),
    }
}

/// What is said of one that was written, or where none can be.
fn write_said(written: bool) -> RegisterSaid
    ensures { (device : Option Registers) → IsTrue written ↔ IsSome device
        → result ≡ write_said device }
{
    if written {
        RegisterSaid::Written
    } else {
        RegisterSaid::Failed(NOT_DONE)
    }
}
