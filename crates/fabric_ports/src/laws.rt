//! Laws, each the contract of a function with an empty body.
ghost use Rattle.fabric_ports.specs.Responses.{ResponsesAreOne, ResponsesStay};

/// Two asks of one fabric with one request get one response, whatever edits the wires meet in each,
/// and leave the same registers; and if one gets a response, no other is without one, unless an
/// event was acted on and not sent.
pub fn noise_leaves_responses()
    ensures one { ResponsesAreOne }
    ensures stay { ResponsesStay }
{}
