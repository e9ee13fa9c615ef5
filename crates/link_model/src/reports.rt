//! What a port tells of its free receive buffers (transmitter-controlled flow control, RapidIO
//! Interconnect Specification 1.3, Part 6).
ghost use Rattle.std.specs.Prelude.{◌≡◌, ◌<◌, IfSome};
ghost use Rattle.link_model.specs.Reports.{IsReport, report_of, credit, has_credit, has_buffer_status, base_of};

use crate::symbols::UNTOLD;
use rio_symbols::stype0;

/// What a port told of its receive buffers.
#[derive(Clone, Copy, Debug, PartialEq, Eq)]
pub struct Report {
    /// The ackID that it expected then, 0 to 31.
    pub base: u8,
    /// How many of its buffers were free then, 0 to 30.
    pub free: u8,
}

impl Report {
    /// The report of a buffer status, from a port that expects the ackID `base`. `None` exactly for
    /// 31, which tells nothing.
    pub fn new(base: u8, buffers: u8) -> Option<Report>
        requires base { base < 32 }
        requires buffers { buffers < 32 }
        ensures value { result ≡ report_of base buffers }
        ensures range { IfSome result IsReport }
    {
        if buffers < UNTOLD {
            Some(Report {
                base,
                free: buffers,
            })
        } else {
            None
        }
    }

    /// Returns how many buffers are left for the packet with this ackID, if each packet from the
    /// base on takes one.
    fn credit(self, ack: u8) -> u8
        requires report { IsReport self }
        requires ack { ack < 32 }
        ensures { result ≡ credit self ack }
    {
        let sent = (ack + 32 - self.base) % 32;
        self.free.saturating_sub(sent)
    }
}

/// Returns whether the packet with this ackID and priority may start: the last report leaves more
/// buffers than there are higher priorities (this project's profile), or there is none.
pub fn has_credit(report: Option<Report>, ack: u8, prio: u8) -> bool
    requires report { IfSome report IsReport }
    requires ack { ack < 32 }
    requires prio { prio < 4 }
    ensures { result ≡ has_credit report ack prio }
{
    match report {
        Some(report) => 3 - prio < report.credit(ack),
        None => true,
    }
}

/// Returns whether a symbol with this stype0 has a buffer status: packet-accepted, packet-retry and
/// status have.
pub fn has_buffer_status(s0: u8) -> bool
    ensures { result ≡ has_buffer_status s0 }
{
    s0 == stype0::PACKET_ACCEPTED || s0 == stype0::PACKET_RETRY || s0 == stype0::STATUS
}

/// Returns the ackID that the sender of such a symbol expects next: the one behind the ackID of a
/// packet-accepted, else that of the symbol.
pub fn report_base(s0: u8, ack: u8) -> u8
    requires { ack < 32 }
    ensures value { result ≡ base_of s0 ack }
    ensures range { result < 32 }
{
    if s0 == stype0::PACKET_ACCEPTED {
        (ack + 1) % 32
    } else {
        ack
    }
}
