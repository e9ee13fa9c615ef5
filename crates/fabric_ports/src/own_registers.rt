//! What devices do with their own registers, without a packet.
ghost use Rattle.std.specs.Prelude.{◌≡◌, List, Some, slice_get};
ghost use Rattle.maint_registers.specs.Access.{value_at};
ghost use Rattle.maint_registers.specs.Devices.{Registers};
ghost use Rattle.fabric_trace.specs.Fold.{seen};
ghost use Rattle.fabric_trace.specs.Known.{Seen};
ghost use Rattle.trace_lines.specs.Lines.{TraceLine};
ghost use Rattle.fabric_ports.specs.OwnRegisters.{HasEndpoint, OwnWritten, HasDevice, StandardShown, AllStandardShown};
ghost use Rattle.fabric_ports.specs.Standing.{Stands, StandsForLines};

use crate::fabric::Fabric;

impl Fabric {
    /// Reads a register of an endpoint, as a request at its port does, but without a packet. The
    /// offset is in bytes. `None` comes exactly if no register stands there.
    pub fn register_read(&self, node: u8, offset: u32) -> Option<u32>
        requires endpoint { HasEndpoint self.now node }
        ensures { (from : Seen) (lines : List TraceLine) (device : Registers)
            → Stands from lines self.now
            → slice_get (seen from lines).network.registers node ≡ Some device
            → result ≡ value_at device offset 0 }
    {
        self.devices[usize::from(node)].read(offset, 0)
    }

    /// Writes a register of an endpoint without a packet. The offset is in bytes. False comes
    /// exactly if no register that can be written stands there; then nothing changes.
    pub fn register_write(&mut self, node: u8, offset: u32, value: u32) -> bool
        requires endpoint { HasEndpoint self.old node }
        ensures { (from : Seen) (lines : List TraceLine) (device : Registers)
            → Stands from lines self.old
            → slice_get (seen from lines).network.registers node ≡ Some device
            → OwnWritten node device offset value from lines self.old self.new result }
    {
        self.devices[usize::from(node)].write(offset, value)
    }

    /// Has a device show, from now on, the registers that standard hosts look for besides the
    /// others.
    pub fn show_standard(&mut self, node: u8)
        requires device { HasDevice self.old node }
        ensures { (from : Seen) (lines : List TraceLine) → Stands from lines self.old
            → StandardShown node from lines self.new }
    {
        self.show_standard_at(usize::from(node));
    }

    /// Has every device show them.
    pub fn show_all_standard(&mut self)
        requires stands { StandsForLines self.old }
        ensures { (from : Seen) (lines : List TraceLine) → Stands from lines self.old
            → AllStandardShown from lines self.new }
    {
        for place in 0..self.devices.len() {
            self.show_standard_at(place);
        }
    }

    /// Has the device at a place show them. It moves the same packets as before, so what has
    /// nothing to do has nothing to do still.
    fn show_standard_at(&mut self, place: usize)
        requires device { HasDevice self.old place }
        ensures { (from : Seen) (lines : List TraceLine) → Stands from lines self.old
            → StandardShown place from lines self.new }
    {
        self.devices[place].show_standard();
    }
}
