//! Drains of a link, and turns with what comes of them.
ghost use Rattle.std.specs.Prelude.{◌≡◌, not};
ghost use Rattle.link_port.specs.Ports.{PortState};
ghost use Rattle.link_machine.specs.Prelude.{A, B, IsSoundLink, link};
ghost use Rattle.link_machine.specs.Acts.{At, goes};
ghost use Rattle.link_machine.specs.Schedules.{NextOf};
ghost use Rattle.link_machine.specs.Settling.{Empties, Drains, TakesTurn, is_busy};
ghost use Rattle.link_law.specs.Does.{CallDid, FailuresCounted};

use crate::answers::LinkEnd;
use crate::link::Link;
use link_port::Port;
use link_watch::{Side, Watch};

impl Link {
    /// Delivers all characters of a wire, if there are any.
    fn empty<W: Watch>(
        &mut self,
        from: Side,
        a: &mut Port,
        b: &mut Port,
        watch: &mut W,
    ) -> Result<(), LinkEnd>
        ensures does { CallDid W.grew W.cut (Empties from) (link self.old a.old b.old) watch.old
            result (link self.new a.new b.new) watch.new }
        ensures counts { FailuresCounted result (W.faults watch.old) (W.faults watch.new) }
    {
        let length = self.length(from);
        if length == 0 {
            return Ok(());
        }
        let Ok(count) = u32::try_from(length) else {
            return Err(LinkEnd::NoMemory);
        };
        let alloc = self.alloc();
        self.deliver(alloc, from, count, a, b, watch)?;
        Ok(())
    }

    /// Delivers all that stands on each wire, side A's first.
    fn round<W: Watch>(&mut self, a: &mut Port, b: &mut Port, watch: &mut W) -> Result<(), LinkEnd>
        ensures does { CallDid W.grew W.cut (NextOf goes (Empties A) (Empties B))
            (link self.old a.old b.old) watch.old result (link self.new a.new b.new) watch.new }
        ensures counts { FailuresCounted result (W.faults watch.old) (W.faults watch.new) }
    {
        self.empty(Side::A, a, b, watch)?;
        self.empty(Side::B, a, b, watch)
    }

    /// Whether nothing stands on either wire.
    fn is_idle(&self) -> bool
        ensures { (a b : PortState) → is_busy (At (link self.now a b)) ≡ not result }
    {
        self.length(Side::A) == 0 && self.length(Side::B) == 0
    }

    /// Delivers all characters of both wires, side A's first, until none is left.
    pub(crate) fn drain<W: Watch>(
        &mut self,
        a: &mut Port,
        b: &mut Port,
        watch: &mut W,
    ) -> Result<(), LinkEnd>
        requires { IsSoundLink (link self.old a.old b.old) }
        ensures does { CallDid W.grew W.cut Drains (link self.old a.old b.old) watch.old
            result (link self.new a.new b.new) watch.new }
        ensures counts { FailuresCounted result (W.faults watch.old) (W.faults watch.new) }
    {
        for _ in 0..3u8 {
            if self.is_idle() {
                return Ok(());
            }
            self.round(a, b, watch)?;
        }
        Ok(())
    }

    /// Has a port take one turn, and drains what comes of it.
    pub(crate) fn take_turn<W: Watch>(
        &mut self,
        side: Side,
        a: &mut Port,
        b: &mut Port,
        watch: &mut W,
    ) -> Result<(), LinkEnd>
        requires { IsSoundLink (link self.old a.old b.old) }
        ensures does { CallDid W.grew W.cut (TakesTurn side) (link self.old a.old b.old) watch.old
            result (link self.new a.new b.new) watch.new }
        ensures counts { FailuresCounted result (W.faults watch.old) (W.faults watch.new) }
    {
        let alloc = self.alloc();
        self.pump(alloc, side, 1, a, b, watch)?;
        self.drain(a, b, watch)
    }
}
