//! Laws of maps, for whoever states something of an enumeration.
ghost use Rattle.fabric_map.specs.Laws.{OneMap, OneWalk, OneFirstLocked, EachIsReached, LaterIsBelow, OneEndpoint, GoesPast, TakesIn, WalkCloses, WalkBegins};
ghost use Rattle.fabric_map.specs.Ways.{RequestEnds, AnswerReturns};

/// A fabric whose host has an ID has at most one map, and the devices that are met before one path
/// are determined.
pub fn a_fabric_has_one_map()
    ensures map { OneMap }
    ensures walk { OneWalk }
{}

/// At most one device is the first that a host meets with the lock of another host, and its lock
/// has one ID.
pub fn the_first_locked_is_one()
    ensures { OneFirstLocked }
{}

/// A map has every device that is reached. A device behind a port, if it was met later than the
/// device of that port, has a path through this port or a lesser one.
pub fn a_map_is_whole()
    ensures reached { EachIsReached }
    ensures below { LaterIsBelow }
{}

/// Packets for one ID that leave one port come to at most one endpoint.
pub fn an_id_has_one_endpoint()
    ensures { OneEndpoint }
{}

/// How a walk goes on, said of the devices that are met and the path that is tried next, and of
/// nothing else: from no device at all, past a port, to a device that is not met yet, and back when
/// its ports are tried.
pub fn a_walk_goes_on()
    ensures begun { WalkBegins }
    ensures past { GoesPast }
    ensures taken { TakesIn }
    ensures closed { WalkCloses }
{}

/// A request ends at the device on its path, and the answer at the host, if each switch on the path
/// sends packets for 255 onwards and packets for the host's ID back. The tables of the device
/// itself do not matter.
pub fn a_host_asks_along_a_path()
    ensures request { RequestEnds }
    ensures answer { AnswerReturns }
{}
