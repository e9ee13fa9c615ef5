//! Where packets are: each law is the contract of a function with an empty body.
ghost use Rattle.ask_laws.specs.Ended.{AsksEndSomewhere};

/// Behind an ask of a host over a fabric without a packet, if every event that was acted on was
/// sent: the packet came to the host, which collected it last; or it waits at a port that has no
/// link, and no other is there; or none is in the network, since it was dropped or left at another
/// endpoint.
pub fn asks_end_somewhere()
    ensures { AsksEndSomewhere }
{}
