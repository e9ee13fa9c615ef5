//! A small fabric: that plain registers can be asked at all.
ghost use Rattle.fabric_map.specs.Topology.{IsTopology};
ghost use Rattle.fabric_map.specs.Fitting.{Fits};
ghost use Rattle.fabric_map.specs.Plain.{topology_of, registers_of};
ghost use Rattle.host_enumerate.specs.Examples.{pair_devices, pair_links};

/// A host and an endpoint with a link between them are a fabric, which their registers show.
pub fn a_pair_can_be_asked()
    ensures topology { IsTopology (topology_of pair_devices pair_links 0) }
    ensures fits { Fits (topology_of pair_devices pair_links 0) (registers_of pair_devices) }
{}
