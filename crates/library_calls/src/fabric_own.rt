//! A node's own registers, of an open fabric.
ghost use Rattle.std.specs.Prelude.{IfOk};
ghost use Rattle.live_fabric.specs.Sessions.{SessionHeld, SessionHolds};
ghost use Rattle.library_calls.specs.FabricsSeen.{FabricHolds};
ghost use Rattle.library_calls.specs.FabricOwn.{OwnCame, FabricOwnDid};

use crate::fabric_asks::{NO_REPLY, outcome_numbers};
use crate::open_fabric::OpenFabric;
use crate::status::CallStatus;
use crate::told::{OwnAccess, RegisterReply};
use live_fabric::{AskOutcome, Session};
use rio_chars::NoMemory;
use std::alloc::Global;

impl OpenFabric {
    /// Has the node of this name read or write one of its own registers without a packet, and tells
    /// what came of it. The text that waits stays. If the offset is out of range, nothing is done.
    pub fn own(
        &mut self,
        alloc: Global,
        name: &[u8],
        access: &OwnAccess,
        told: &mut RegisterReply,
    ) -> CallStatus
        requires { FabricHolds self.old }
        ensures holds { FabricHolds self.new }
        ensures did { FabricOwnDid name.now access.now told.new self.old result self.new }
    {
        *told = NO_REPLY;
        if access.offset >= 0x0100_0000 {
            return CallStatus::Argument;
        }
        if self.spent {
            return CallStatus::Spent;
        }
        self.spent = true;
        match own_access(alloc, &mut self.session, name, access) {
            Ok(outcome) => {
                self.spent = false;
                *told = outcome_numbers(outcome);
                CallStatus::Done
            }
            Err(NoMemory) => CallStatus::Cut,
        }
    }
}

/// The same of a session.
fn own_access(
    alloc: Global,
    session: &mut Session,
    name: &[u8],
    access: &OwnAccess,
) -> Result<AskOutcome, NoMemory>
    requires { (held : SessionHeld) × SessionHolds session.old held }
    ensures { IfOk result (λ outcome. (held : SessionHeld) → SessionHolds session.old held
        → OwnCame held name.now access.now session.new outcome) }
{
    if access.write == 0 {
        return session.own_read(alloc, name, access.offset);
    }
    session.own_write(alloc, name, access.offset, access.value)
}
