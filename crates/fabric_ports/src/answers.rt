//! What an event answers.
use fabric_script::PortRef;
use link_wires::UndetectedEvent;
use rio_packets::Packet;

/// What an event did.
#[derive(Debug, Drop)]
pub enum Happened {
    /// A packet was taken to be sent.
    Took,
    /// There was no room for the packet to be sent, or for the response to the request that is
    /// next.
    Full,
    /// This packet left the fabric.
    Left(Packet),
    /// The registers of an endpoint answered a request.
    Answered,
    /// Nothing was held that could leave.
    Empty,
    /// The line is of another kind.
    Other,
}

/// Why an event was not carried out to its end. The fabric is of no use then.
#[derive(Debug, Drop)]
pub enum FabricEnd {
    /// The port acted on an event that was not sent: a corruption that no check has found.
    Undetected {
        port: PortRef,
        event: UndetectedEvent,
    },
    /// The sink failed: what is behind the failure was not written, and the event was not carried
    /// out to its end.
    Failed,
    /// Memory was wanted and not given.
    NoMemory,
}
