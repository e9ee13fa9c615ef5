//! Lines of which the laws do not hold.
ghost use Rattle.fabric_trace.specs.Examples.{near, pair_network, acted_from_nowhere};
ghost use Rattle.fabric_trace.specs.Runs.{begins};
ghost use Rattle.trace_laws.specs.ActedSent.{AreSentActing};
ghost use Rattle.trace_laws.specs.Examples.{retry_sent};
ghost use Rattle.trace_laws.specs.Retries.{AsksNoneAgain};

/// A line with a packet-retry asks for a packet again. If an acceptance comes that nobody sent, a
/// port acts on what was not sent.
pub fn laws_of_runs_can_fail()
    ensures retry { AsksNoneAgain near retry_sent → ⊥ }
    ensures acted { AreSentActing (begins pair_network) acted_from_nowhere → ⊥ }
{}
