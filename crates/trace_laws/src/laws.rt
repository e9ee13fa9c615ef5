//! What a trace does at its links: each law is the contract of a function with an empty body.
ghost use Rattle.trace_laws.specs.ActedSent.{UnfoundIsSent};
ghost use Rattle.trace_laws.specs.LinksRun.{LinksOfTracesRun};
ghost use Rattle.trace_laws.specs.Retries.{ToldInTimeAsksNoneAgain};

/// From any lines made of parts on, as long as every event that was acted on was sent, each link of
/// the fabric has come to where it stands by a run of its machine: by calls, edits and the layer
/// above.
pub fn links_of_traces_run()
    ensures { LinksOfTracesRun }
{}

/// If after some lines a port tells its free buffers, and a report of it has reached its peer
/// before that started a packet, no `sent` line of the port that follows has a packet-retry, also
/// one that answers a delivery with an event that was not sent.
pub fn told_in_time_asks_none_again()
    ensures { ToldInTimeAsksNoneAgain }
{}

/// In lines made of parts, by which no event was found that was not sent, all that a port acts on
/// at a `got` line was sent, in this order, since the last time-out of its link. So it is in the
/// lines of asks.
pub fn what_is_acted_on_was_sent()
    ensures { UnfoundIsSent }
{}
