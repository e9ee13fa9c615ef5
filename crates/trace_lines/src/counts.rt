//! How many lines of packets a trace has.
ghost use Rattle.std.specs.Prelude.{◌≡◌};
ghost use Rattle.trace_lines.specs.Counts.{nothing_counted, count_raised};

/// How many packets the lines of a trace take, let leave and drop. A count stands still at its
/// greatest value.
#[derive(Clone, Copy, Debug, PartialEq, Eq)]
pub struct PacketCounts {
    /// Packets that endpoints took: the lines `take`.
    pub taken: u32,
    /// Packets that left the fabric: the lines `leave`.
    pub left: u32,
    /// Packets that switches dropped: the lines `drop`.
    pub dropped: u32,
}

impl PacketCounts {
    /// Of no lines.
    pub fn new() -> PacketCounts
        ensures { result ≡ nothing_counted }
    {
        PacketCounts {
            taken: 0,
            left: 0,
            dropped: 0,
        }
    }
}

/// One more, up to the greatest count.
pub(crate) fn one_more(count: u32) -> u32
    ensures { result ≡ count_raised count }
{
    count.saturating_add(1)
}
