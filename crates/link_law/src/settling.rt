//! Settling: the schedule that brings a link to rest.
ghost use Rattle.std.specs.Prelude.{◌≡◌, ◌≤◌, IsErrOf, OnOk, IfErr};
ghost use Rattle.rio_chars.specs.Faults.{Rose};
ghost use Rattle.link_machine.specs.Prelude.{A, B, IsSoundLink, link};
ghost use Rattle.link_machine.specs.Acts.{At, goes};
ghost use Rattle.link_machine.specs.Rest.{IsQuiet, IsSettled};
ghost use Rattle.link_machine.specs.Schedules.{NextOf};
ghost use Rattle.link_machine.specs.Settling.{Restarts, TimesOut, Requests, Recovers, Tells, SendsAll, Settles};
ghost use Rattle.link_law.specs.Does.{Comes, Ends, CallDid, FailuresCounted};

use crate::answers::LinkEnd;
use crate::link::Link;
use crate::port_states::{failed, far, fires, is_quiet, is_ready, near, stands_back};
use link_port::Port;
use link_watch::{Side, Watch};
use std::alloc::Global;

impl Link {
    /// Brings a sound link to rest. Both wires are drained; each side recovers, with a
    /// restart-from-retry if one is owed, and a time-out and a link-request if its direction is not
    /// at rest then; each side tells its free buffers, if it does so at all; and what waits is
    /// sent, as far as it has room. Each turn and each status is noted as `pump` of one, each
    /// delivery as `deliver`. Undetected comes as for `deliver`. A wire of more than `u32::MAX`
    /// characters ends it with `NoMemory`.
    pub fn settle<W: Watch>(
        &mut self,
        _alloc: Global,
        a: &mut Port,
        b: &mut Port,
        watch: &mut W,
    ) -> Result<(), LinkEnd>
        requires { IsSoundLink (link self.old a.old b.old) }
        ensures done { OnOk result (Comes W.grew Settles (link self.old a.old b.old) watch.old
            (At (link self.new a.new b.new)) watch.new) }
        ensures rest { OnOk result (IsSoundLink (link self.new a.new b.new)
            × IsSettled (link self.new a.new b.new)) }
        ensures ended { IfErr result (λ end. Ends W.grew W.cut Settles (link self.old a.old b.old)
            watch.old end watch.new) }
        ensures cause { IsErrOf result LinkEnd.Failed
            → Rose (W.faults watch.old) (W.faults watch.new) }
        ensures counts { ¬ IsErrOf result LinkEnd.Failed
            → W.faults watch.new ≡ W.faults watch.old }
        ensures never_falls { W.faults watch.old ≤ W.faults watch.new }
    {
        self.drain(a, b, watch)?;
        self.recover(Side::A, a, b, watch)?;
        self.recover(Side::B, a, b, watch)?;
        self.finish(a, b, watch)
    }

    /// Sends a restart-from-retry, if one is owed.
    fn restart<W: Watch>(
        &mut self,
        side: Side,
        a: &mut Port,
        b: &mut Port,
        watch: &mut W,
    ) -> Result<(), LinkEnd>
        requires { IsSoundLink (link self.old a.old b.old) }
        ensures does { CallDid W.grew W.cut (Restarts side) (link self.old a.old b.old) watch.old
            result (link self.new a.new b.new) watch.new }
        ensures counts { FailuresCounted result (W.faults watch.old) (W.faults watch.new) }
    {
        if !stands_back(near(side, a, b)) {
            return Ok(());
        }
        self.take_turn(side, a, b, watch)
    }

    /// Fires a time-out, if it may fire.
    fn fire_if_due<W: Watch>(
        &mut self,
        side: Side,
        a: &mut Port,
        b: &mut Port,
        watch: &mut W,
    ) -> Result<(), LinkEnd>
        ensures does { CallDid W.grew W.cut (TimesOut side) (link self.old a.old b.old) watch.old
            result (link self.new a.new b.new) watch.new }
        ensures counts { FailuresCounted result (W.faults watch.old) (W.faults watch.new) }
    {
        if !fires(near(side, a, b)) {
            return Ok(());
        }
        let alloc = self.alloc();
        self.time_out(alloc, side, a, b, watch)?;
        Ok(())
    }

    /// Sends a link-request, if the direction is not at rest.
    fn request<W: Watch>(
        &mut self,
        side: Side,
        a: &mut Port,
        b: &mut Port,
        watch: &mut W,
    ) -> Result<(), LinkEnd>
        requires { IsSoundLink (link self.old a.old b.old) }
        ensures does { CallDid W.grew W.cut (Requests side) (link self.old a.old b.old) watch.old
            result (link self.new a.new b.new) watch.new }
        ensures counts { FailuresCounted result (W.faults watch.old) (W.faults watch.new) }
    {
        if is_quiet(near(side, a, b), far(side, a, b)) {
            return Ok(());
        }
        self.fire_if_due(side, a, b, watch)?;
        self.take_turn(side, a, b, watch)
    }

    /// Brings the direction of one side to rest.
    fn recover<W: Watch>(
        &mut self,
        side: Side,
        a: &mut Port,
        b: &mut Port,
        watch: &mut W,
    ) -> Result<(), LinkEnd>
        requires { IsSoundLink (link self.old a.old b.old) }
        ensures does { CallDid W.grew W.cut (Recovers side) (link self.old a.old b.old) watch.old
            result (link self.new a.new b.new) watch.new }
        ensures counts { FailuresCounted result (W.faults watch.old) (W.faults watch.new) }
    {
        if failed(near(side, a, b)) {
            return Ok(());
        }
        self.restart(side, a, b, watch)?;
        self.request(side, a, b, watch)
    }

    /// Of a link at rest, each side tells its free buffers, if it does, and then what waits is
    /// sent.
    fn finish<W: Watch>(&mut self, a: &mut Port, b: &mut Port, watch: &mut W) -> Result<(), LinkEnd>
        requires { IsSoundLink (link self.old a.old b.old) × IsQuiet (link self.old a.old b.old) }
        ensures does { CallDid W.grew W.cut (NextOf goes (Tells A) (NextOf goes (Tells B)
            (NextOf goes (SendsAll A) (SendsAll B)))) (link self.old a.old b.old) watch.old
            result (link self.new a.new b.new) watch.new }
        ensures counts { FailuresCounted result (W.faults watch.old) (W.faults watch.new) }
    {
        self.tell_if_due(Side::A, a, b, watch)?;
        self.tell_if_due(Side::B, a, b, watch)?;
        self.send_all(Side::A, a, b, watch)?;
        self.send_all(Side::B, a, b, watch)
    }

    /// Sends what waits at a side of a link at rest, packet by packet, as long as a turn starts
    /// one. If one has no room, the port restarts and sends no more.
    fn send_all<W: Watch>(
        &mut self,
        side: Side,
        a: &mut Port,
        b: &mut Port,
        watch: &mut W,
    ) -> Result<(), LinkEnd>
        requires { IsSoundLink (link self.old a.old b.old) × IsQuiet (link self.old a.old b.old) }
        ensures does { CallDid W.grew W.cut (SendsAll side) (link self.old a.old b.old) watch.old
            result (link self.new a.new b.new) watch.new }
        ensures counts { FailuresCounted result (W.faults watch.old) (W.faults watch.new) }
    {
        while is_ready(near(side, a, b)) {
            self.take_turn(side, a, b, watch)?;
            if stands_back(near(side, a, b)) {
                return self.take_turn(side, a, b, watch);
            }
        }
        Ok(())
    }
}
