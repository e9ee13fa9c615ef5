//! Laws, each the contract of a function with an empty body.
ghost use Rattle.std.specs.Prelude.{◌≡◌, [], Result};
ghost use Rattle.link_model.specs.declared.event.Event.{Event};
ghost use Rattle.fabric_script.specs.declared.ports.PortRef.{PortRef};
ghost use Rattle.fabric_map.specs.Topology.{Topology};
ghost use Rattle.fabric_map.specs.Routes.{AllRegisters};
ghost use Rattle.fabric_map.specs.declared.map.Map.{Map};
ghost use Rattle.host_enumerate.specs.declared.ends.EnumEnd.{EnumEnd};
ghost use Rattle.host_enumerate.specs.Enumerated.{IsEnumerated};
ghost use Rattle.fabric_maint.specs.Agreeing.{Agrees};
ghost use Rattle.fabric_maint.specs.Going.{HasMet};

use fabric_ports::Noise;
use rio_chars::Sink;

/// What `enumerate` answers, by its clause `enumerated`, does not depend on what carries the
/// accesses, so it does not depend on a noise. Two maps of one fabric are the same. Two answers
/// that another host holds a device name the same device and host. And of one fabric there are not
/// both.
pub fn noise_leaves_answers()
    ensures { (topology : Topology) (before after other : AllRegisters)
        (one two : Result Map EnumEnd)
        → IsEnumerated topology before after one → IsEnumerated topology before other two
        → Agrees one two }
{}

/// If a noise gives no edits, as `Quiet` gives none, no undetected event is met.
pub fn without_edits_nothing_is_met<N: Noise, K: Sink>()
    ensures { ((noise : _) → N.edits noise ≡ [])
        → (maint : _) (port : PortRef) (event : Event)
        → ¬ HasMet N.edits K.written maint port event }
{}
