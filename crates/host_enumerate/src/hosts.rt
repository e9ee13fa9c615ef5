//! The host among the nodes of a script, by its name.
ghost use Rattle.std.specs.Prelude.{◌≡◌, ◌<◌, IfOk, MatchOption, Contains, length};
ghost use Rattle.fabric_script.specs.Scripts.{ScriptPasses};
ghost use Rattle.host_enumerate.specs.Devised.{devices_of, links_of};
ghost use Rattle.host_enumerate.specs.Hosts.{reason_of, FindsHost, IsFirstNamed};

use crate::devising::{NoHost, judge_host};
use fabric_script::{Name, Reason, Script};
use rio_chars::NoMemory;
use std::alloc::Global;

impl NoHost {
    /// The reason for which a line is refused that names such a node as the host.
    pub fn reason(self) -> Reason
        ensures { result ≡ reason_of self }
    {
        match self {
            NoHost::Unknown => Reason::UnknownNode,
            NoHost::WrongKind => Reason::WrongKind,
            NoHost::NotLinked => Reason::NotLinked,
        }
    }
}

/// The node with this name, if it can be the host that numbers the fabric of a script, or why there
/// is none. The script passes.
pub fn find_host(
    alloc: Global,
    script: &Script,
    name: &[u8],
) -> Result<Result<u8, NoHost>, NoMemory>
    requires passes { ScriptPasses script.now.names.items script.now.lines.items }
    ensures { IfOk result (λ found. FindsHost script.now.names.items
        (devices_of script.now.lines.items) (links_of script.now.lines.items) name.now found) }
{
    let Some(node) = find_node(script.names.as_slice(), name) else {
        return Ok(Err(NoHost::Unknown));
    };
    match judge_host(alloc, script, node)? {
        Ok(()) => Ok(Ok(node)),
        Err(end) => Ok(Err(end)),
    }
}

/// The number of the first node with this name.
fn find_node(names: &[Name], word: &[u8]) -> Option<u8>
    requires { length names.now < 256 }
    ensures { MatchOption result (¬ Contains names.now word.now) (IsFirstNamed names.now word.now) }
{
    let place = names.iter().position(|name| name.as_slice() == word)?;
    Some(place as u8)
}
