//! Laws of answers, for whoever states something of devices and packets.
ghost use Rattle.maint_packets.specs.Laws.{ResponsesPass, AnsweredStaysWithin, AnsweredIsSame};

/// If each number of a device fits its register, the device answers a packet in its link form with
/// another, and its numbers go on to fit.
pub fn answers_keep_forms()
    ensures response { ResponsesPass }
    ensures device { AnsweredStaysWithin }
{}

/// A device that answers stays of its kind, with its ports and its links.
pub fn answers_keep_devices()
    ensures { AnsweredIsSame }
{}
