//! Where a port stands among all.

ghost use Rattle.std.specs.Prelude.{◌≡◌};
ghost use Rattle.trace_check.specs.Tables.{table_place};

use fabric_script::PortRef;

/// How many places the ports of a node have.
pub(crate) const PORTS: usize = 16;

/// The place of a port among all: those of a node stand together, in the order of their numbers.
pub(crate) fn place_of(port: PortRef) -> usize
    ensures { result ≡ table_place port }
{
    PORTS * usize::from(port.node) + usize::from(port.port)
}
