//! Laws, each the contract of a function with an empty body.
ghost use Rattle.std.specs.Prelude.{ℕ, List};
ghost use Rattle.fabric_script.specs.declared.lines.Numbered.{Numbered as NumberedLine};
ghost use Rattle.fabric_script.specs.Scripts.{ScriptPasses};
ghost use Rattle.host_enumerate.specs.Checking.{IsNewFabric};
ghost use Rattle.host_enumerate.specs.Devised.{IsHost, devices_of, links_of};

/// The set-up lines of a script that passes make a fabric that can be numbered by each endpoint
/// that has an ID and a link: at most 64 devices, which show their links, and none has a tag.
pub fn scripts_make_new_fabrics()
    ensures { (names : List (List ℕ)) (lines : List NumberedLine) (host : ℕ)
        → ScriptPasses names lines
        → IsHost (devices_of lines) (links_of lines) host
        → IsNewFabric (devices_of lines) (links_of lines) host }
{}
