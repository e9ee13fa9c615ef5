//! `Maint`: how a host reads and writes the registers of devices.
ghost use Rattle.std.specs.Prelude.{◌≡◌, ◌<◌, ◌^◌, ℕ, OnOk, OnErr, IfOk, IfErr};
ghost use Rattle.link_model.specs.declared.event.Event.{Event};
ghost use Rattle.fabric_script.specs.declared.ports.PortRef.{PortRef};
ghost use Rattle.fabric_script.specs.Ports.{port_at};
ghost use Rattle.fabric_map.specs.Topology.{Topology, IsTopology};
ghost use Rattle.fabric_map.specs.Routes.{AllRegisters};
ghost use Rattle.fabric_map.specs.Fitting.{Fits};
ghost use Rattle.host_enumerate.specs.Accesses.{answered, access_offset, after_access, IsAnswered};
ghost use Rattle.host_enumerate.specs.Causes.{IsCaused};

use fabric_script::PortRef;
use link_model::Event;
use std::alloc::Global;

/// What is asked of a device: the value of the register at an offset, or to write a value to it.
#[derive(Clone, Copy, Debug, PartialEq, Eq)]
pub enum Access {
    Read(u32),
    Write(u32, u32),
}

/// What a device answers: status 0 if the access was done, else 7, and the value that was read,
/// else 0.
#[derive(Clone, Copy, Debug, PartialEq, Eq)]
pub struct Answer {
    pub status: u8,
    pub value: u32,
}

/// Why an access has no answer.
#[derive(Debug, Drop)]
pub enum MaintEnd {
    /// This port acted on this event, which was not sent, and the count of undetected events rose.
    Undetected { port: PortRef, event: Event },
    /// A write failed, and the count of write faults rose.
    WriteFault,
    /// Memory was wanted and not given.
    NoMemory,
}

/// Whoever carries the accesses of a host to the devices of a fabric, and back.
pub trait Maint {
    /// The devices and links.
    ghost topology: { Self → Topology };

    /// The registers of each device.
    ghost registers: { Self → AllRegisters };

    /// How many undetected events were met. The count never falls.
    ghost undetected: { Self → ℕ };

    /// How many writes have failed. The count never falls.
    ghost faults: { Self → ℕ };

    /// The last call ended because this port acted on this event, which was not sent.
    ghost IsMet: { Self → PortRef → Event → Type 0 };

    /// It can be asked. It stays so until a call answers an end.
    ghost IsWhole: { Self → Type 0 };

    /// What came between the first and the second, as what was written, is in order.
    ghost Follows: { Self → Self → Type 0 };

    /// What came behind the first is in order up to where it stops.
    ghost Leaves: { Self → Self → Type 0 };

    /// It is so if all of it is in order.
    ghost follows_leaves: { (origin maint : Self) → Follows origin maint → Leaves origin maint };

    /// What can be asked has a topology, in which every link joins two ports.
    ghost whole_is_proper: { (maint : Self) → IsWhole maint → IsTopology (topology maint) };

    /// Its registers show the kinds, ports and links of its topology.
    ghost whole_fits: { (maint : Self) → IsWhole maint → Fits (topology maint) (registers maint) };

    /// Asks the device at which a request for a destination ends after so many hops. `answered`
    /// says that there is one, other than the host, and that its answer comes back. After an end no
    /// other call is made.
    fn ask(&mut self, alloc: Global, dest: u8, hops: u8, access: Access) -> Result<Answer, MaintEnd>
        requires whole { IsWhole self.old }
        requires offset { access_offset access < 2 ^ 24 }
        requires answered { (at : PortRef)
            × IsAnswered (topology self.old) (registers self.old) dest hops access at }
        ensures answer { IfOk result (λ answer. (at : PortRef)
            → IsAnswered (topology self.old) (registers self.old) dest hops access at
            → answer ≡ (answered (registers self.old at.node) at.port access).answer) }
        ensures registers { OnOk result ((at : PortRef)
            → IsAnswered (topology self.old) (registers self.old) dest hops access at
            → registers self.new ≡ after_access (registers self.old) at access) }
        ensures topology { topology self.new ≡ topology self.old }
        ensures whole { OnOk result (IsWhole self.new) }
        ensures follows { OnOk result ((origin : Self) → Follows origin self.old
            → Follows origin self.new) }
        ensures leaves { OnErr result ((origin : Self) → Follows origin self.old
            → Leaves origin self.new) }
        ensures cause { IfErr result (IsCaused (undetected self.old, undetected self.new)
            (faults self.old, faults self.new) (IsMet self.new)) }
        ensures undetected { OnOk result (undetected self.new ≡ undetected self.old) }
        ensures faults { OnOk result (faults self.new ≡ faults self.old) };

    /// Reads or writes a register of the host itself.
    fn own(&mut self, access: Access) -> Answer
        requires whole { IsWhole self.old }
        requires offset { access_offset access < 2 ^ 24 }
        ensures answer { result
            ≡ (answered (registers self.old (topology self.old).host) 0 access).answer }
        ensures registers { registers self.new
            ≡ after_access (registers self.old) (port_at (topology self.old).host 0) access }
        ensures topology { topology self.new ≡ topology self.old }
        ensures whole { IsWhole self.new }
        ensures follows { (origin : Self) → Follows origin self.old → Follows origin self.new }
        ensures undetected { undetected self.new ≡ undetected self.old }
        ensures faults { faults self.new ≡ faults self.old };
}
