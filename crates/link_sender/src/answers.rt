//! What the steps answer.
use crate::out_error_stopped::OutErrorStopped;
use crate::out_ok::OutOk;
use crate::out_retry_stopped::OutRetryStopped;

/// A packet that a turn starts.
#[derive(Clone, Copy, Debug, PartialEq, Eq)]
pub struct Started {
    /// Its ackID.
    pub ack: u8,
    /// Its priority.
    pub prio: u8,
    /// Its place in the list of its priority, counted from 0.
    pub place: u8,
}

/// The state after a packet-accepted.
#[derive(Debug, Drop)]
pub enum AfterAccepted {
    /// The oldest packet was accepted.
    Ok(OutOk),
    /// The ackID is not that of the oldest outstanding packet.
    Stopped(OutErrorStopped),
}

/// The state after a packet-retry.
#[derive(Debug, Drop)]
pub enum AfterRetry {
    /// The oldest packet has to be sent again.
    Retry(OutRetryStopped),
    /// The ackID is not that of the oldest outstanding packet.
    Stopped(OutErrorStopped),
}

/// The state after a link-response.
#[derive(Debug, Drop)]
pub enum AfterResponse {
    /// All packets before the ackID were accepted, and it is the next.
    Ok(OutOk),
    /// The ackID is none that the far port can expect.
    Failed(OutFailed),
    /// No link-request was sent.
    Ignored(OutErrorStopped),
}

/// A sender that has failed: it has no step.
#[derive(Clone, Copy, Debug, PartialEq, Eq)]
pub struct OutFailed;
