//! Single accesses to the device on a path.
ghost use Rattle.std.specs.Prelude.{◌≡◌, ◌<◌, ◌≤◌, ◌^◌, ℕ, IsSome, OnOk, IfOk, Some};
ghost use Rattle.fabric_script.specs.declared.ports.PortRef.{PortRef};
ghost use Rattle.maint_registers.specs.Devices.{Registers};
ghost use Rattle.maint_registers.specs.Access.{value_at, written_at};
ghost use Rattle.fabric_map.specs.Topology.{entered};
ghost use Rattle.host_enumerate.specs.Accesses.{answered, access_offset};
ghost use Rattle.host_enumerate.specs.Carrying.{CallWent};
ghost use Rattle.host_enumerate.specs.Asking.{IsAskable, IsOpenAfter, IsWritable, AreSame, Becomes};

use crate::maint::{Access, Answer, Maint, MaintEnd};
use crate::offsets::ALONG_PATH;
use fabric_map::Path;
use std::alloc::Global;

/// Asks the device on a path.
fn ask<M: Maint>(
    alloc: Global,
    maint: &mut M,
    path: &Path,
    access: Access,
) -> Result<Answer, MaintEnd>
    requires whole { M.IsWhole maint.old }
    requires offset { access_offset access < 2 ^ 24 }
    requires askable { (host_id : ℕ) × (at : PortRef)
        × IsAskable (M.topology maint.old) (M.registers maint.old) host_id path.now at
        × IsOpenAfter (M.topology maint.old) (M.registers maint.old) host_id path.now at access }
    ensures answer { IfOk result (λ answer. (at : PortRef)
        → entered (M.topology maint.old) path.now ≡ Some at
        → answer ≡ (answered (M.registers maint.old at.node) at.port access).answer) }
    ensures registers { OnOk result ((at : PortRef)
        → entered (M.topology maint.old) path.now ≡ Some at
        → Becomes (M.registers maint.old) (M.registers maint.new) at.node
        (answered (M.registers maint.old at.node) at.port access).device) }
    ensures went { CallWent M.Maint maint.old maint.new result }
{
    let ports = path.as_slice().len();
    if ports == 0 {
        return Ok(maint.own(access));
    }
    maint.ask(alloc, ALONG_PATH, (ports - 1) as u8, access)
}

/// Reads a register of the device on a path.
pub(crate) fn read<M: Maint>(
    alloc: Global,
    maint: &mut M,
    path: &Path,
    offset: u32,
) -> Result<u32, MaintEnd>
    requires whole { M.IsWhole maint.old }
    requires offset { offset < 2 ^ 24 }
    requires askable { (host_id : ℕ) × (at : PortRef)
        × IsAskable (M.topology maint.old) (M.registers maint.old) host_id path.now at
        × IsSome (value_at (M.registers maint.old at.node) offset at.port) }
    ensures value { IfOk result (λ value. (at : PortRef)
        → entered (M.topology maint.old) path.now ≡ Some at
        → value_at (M.registers maint.old at.node) offset at.port ≡ Some value) }
    ensures registers { OnOk result (AreSame (M.registers maint.old) (M.registers maint.new)) }
    ensures went { CallWent M.Maint maint.old maint.new result }
{
    let answer = ask(alloc, maint, path, Access::Read(offset))?;
    Ok(answer.value)
}

/// Writes to a register of the device on a path.
pub(crate) fn write<M: Maint>(
    alloc: Global,
    maint: &mut M,
    path: &Path,
    offset: u32,
    value: u32,
) -> Result<(), MaintEnd>
    requires whole { M.IsWhole maint.old }
    requires offset { offset < 2 ^ 24 }
    requires askable { (host_id : ℕ) × (at : PortRef) × (held : Registers)
        × IsAskable (M.topology maint.old) (M.registers maint.old) host_id path.now at
        × IsWritable (M.topology maint.old) (M.registers maint.old) path.now at offset value held }
    ensures registers { OnOk result ((at : PortRef) → (held : Registers)
        → entered (M.topology maint.old) path.now ≡ Some at
        → written_at (M.registers maint.old at.node) offset value ≡ Some held
        → Becomes (M.registers maint.old) (M.registers maint.new) at.node held) }
    ensures went { CallWent M.Maint maint.old maint.new result }
{
    ask(alloc, maint, path, Access::Write(offset, value))?;
    Ok(())
}
