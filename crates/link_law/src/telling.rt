//! Sides that tell their free buffers.
ghost use Rattle.link_machine.specs.Prelude.{IsSoundLink, link};
ghost use Rattle.link_machine.specs.Settling.{Tells};
ghost use Rattle.link_law.specs.Does.{CallDid, FailuresCounted, TellsOnce};

use crate::answers::LinkEnd;
use crate::link::{Link, note_sent};
use crate::port_states::near;
use link_port::Port;
use link_watch::{Side, Watch};

impl Link {
    /// Has a port tell its free buffers, if it does. It is noted as a turn is.
    fn tell<W: Watch>(
        &mut self,
        side: Side,
        a: &Port,
        b: &Port,
        watch: &mut W,
    ) -> Result<(), LinkEnd>
        ensures does { CallDid W.grew W.cut (TellsOnce side) (link self.old a.now b.now) watch.old
            result (link self.new a.now b.now) watch.new }
        ensures counts { FailuresCounted result (W.faults watch.old) (W.faults watch.new) }
    {
        self.wires.tell(side, a, b, &mut self.sent)?;
        note_sent(watch, self.alloc(), side, self.sent.as_slice())?;
        Ok(())
    }

    /// Has a port tell its free buffers, if it does, and drains what comes of it.
    pub(crate) fn tell_if_due<W: Watch>(
        &mut self,
        side: Side,
        a: &mut Port,
        b: &mut Port,
        watch: &mut W,
    ) -> Result<(), LinkEnd>
        requires { IsSoundLink (link self.old a.old b.old) }
        ensures does { CallDid W.grew W.cut (Tells side) (link self.old a.old b.old) watch.old
            result (link self.new a.new b.new) watch.new }
        ensures counts { FailuresCounted result (W.faults watch.old) (W.faults watch.new) }
    {
        if !near(side, a, b).tells() {
            return Ok(());
        }
        self.tell(side, a, b, watch)?;
        self.drain(a, b, watch)
    }
}
