//! One access to the device on a path.
ghost use Rattle.std.specs.Prelude.{◌≡◌, ◌<◌, ◌^◌, OnOk, IfOk, Some};
ghost use Rattle.fabric_script.specs.declared.ports.PortRef.{PortRef};
ghost use Rattle.fabric_map.specs.Topology.{entered};
ghost use Rattle.host_enumerate.specs.Accesses.{answered, access_offset, after_access};
ghost use Rattle.host_enumerate.specs.Carrying.{CallWent};
ghost use Rattle.host_contest.specs.Reaching.{PathIsReached};

use fabric_map::Path;
use host_enumerate::offsets::ALONG_PATH;
use host_enumerate::{Access, Answer, Maint, MaintEnd};
use std::alloc::Global;

/// Asks the device on a path, which is the host itself if the path is empty.
pub(crate) fn reach<M: Maint>(
    alloc: Global,
    maint: &mut M,
    path: &Path,
    access: Access,
) -> Result<Answer, MaintEnd>
    requires whole { M.IsWhole maint.old }
    requires offset { access_offset access < 2 ^ 24 }
    requires reached { (at : PortRef)
        × PathIsReached (M.topology maint.old) (M.registers maint.old) path.now access at }
    ensures answer { IfOk result (λ answer. (at : PortRef)
        → PathIsReached (M.topology maint.old) (M.registers maint.old) path.now access at
        → answer ≡ (answered (M.registers maint.old at.node) at.port access).answer) }
    ensures registers { OnOk result ((at : PortRef)
        → PathIsReached (M.topology maint.old) (M.registers maint.old) path.now access at
        → M.registers maint.new ≡ after_access (M.registers maint.old) at access) }
    ensures went { CallWent M.Maint maint.old maint.new result }
{
    let ports = path.as_slice().len();
    if ports == 0 {
        return Ok(maint.own(access));
    }
    maint.ask(alloc, ALONG_PATH, (ports - 1) as u8, access)
}
