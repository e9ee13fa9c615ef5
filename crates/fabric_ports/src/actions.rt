//! What a script has a link do.
ghost use Rattle.std.specs.Prelude.{◌≡◌, ◌≢◌, ◌≤◌, ◌<◌, length, slice_get, Some, IfOk, Ok, Err};
ghost use Rattle.trace_lines.specs.Writing.{Adds};
ghost use Rattle.link_machine.specs.Sound.{IsSoundLink};
ghost use Rattle.link_machine.specs.States.{link};
ghost use Rattle.link_port.specs.Ports.{PortState};
ghost use Rattle.fabric_script.specs.Operations.{line_for};
ghost use Rattle.fabric_ports.specs.Acting.{AsksForSome, part_of, answer_of, lack_lines, event_end, Acts, AtTwo};
ghost use Rattle.fabric_ports.specs.Ends.{PortIsLinked};
ghost use Rattle.fabric_ports.specs.Ran.{Blocks, FabricRan, end_with};

use crate::answers::FabricEnd;
use crate::ends::{LinkPlace, two};
use crate::fabric::Fabric;
use fabric_script::{Action, PortRef};
use link_law::{Fired, Link, LinkEnd};
use link_port::Port;
use link_watch::{Side, Watch};
use link_wires::Edited;
use rio_chars::Sink;
use std::alloc::Global;
use trace_lines::{Lack, LinkLines, TraceWriter, port_at_side};

/// What came of what a link was asked to do.
#[derive(Clone, Copy)]
pub(crate) enum Acted {
    Done,
    /// The wire had too few characters: nothing was done.
    Short,
    /// A wire was not empty: nothing was done.
    Early,
}

impl Fabric {
    /// Has the link of a port do something.
    pub(crate) fn act<K: Sink>(
        &mut self,
        alloc: Global,
        port: PortRef,
        action: Action,
        writer: &mut TraceWriter<K>,
    ) -> Result<(), FabricEnd>
        requires linked { PortIsLinked self.old port }
        requires named { length self.old.devices.items ≤ length writer.old.names.now }
        requires some { AsksForSome action }
        ensures { FabricRan (Blocks (line_for port action))
            self.old writer.old writer.new (end_with self.new result) }
    {
        let place = self.link_of(port);
        let cable = &mut self.cables[place.cable];
        let (a, b) = (cable.a, cable.b);
        self.idle.wake_link(place.cable, a.node, b.node);
        let mut lines = LinkLines {
            outbox: writer.outbox,
            names: writer.names,
            a,
            b,
        };
        match act_between(
            alloc,
            action,
            place,
            &mut cable.link,
            &mut self.ports,
            &mut lines,
        ) {
            Ok(answer) => {
                write_lack(writer, answer);
                Ok(())
            }
            Err(end) => Err(ended(a, b, end)),
        }
    }
}

/// Has a link between two ports that stand in a list do something.
fn act_between<W: Watch>(
    alloc: Global,
    action: Action,
    place: LinkPlace,
    wires: &mut Link,
    ports: &mut [Port],
    watch: &mut W,
) -> Result<Acted, LinkEnd>
    requires first_within { place.a < length ports.old }
    requires second_within { place.b < length ports.old }
    requires apart { place.a ≢ place.b }
    requires some { AsksForSome action }
    requires sound { (a b : PortState) → slice_get ports.old place.a ≡ Some a
        → slice_get ports.old place.b ≡ Some b → IsSoundLink (link wires.old a b) }
    ensures { AtTwo place.a place.b ports.old ports.new (λ a b next_a next_b.
        Acts W.grew W.cut (part_of place.side action) (link wires.old a b) watch.old
        result (link wires.new next_a next_b) watch.new
        × IfOk result (λ answer. answer ≡ answer_of place.side action (link wires.old a b))) }
{
    let (a, b) = two(ports, place.a, place.b);
    act_at(alloc, action, place.side, wires, a, b, watch)
}

/// Has a link between two ports do something.
fn act_at<W: Watch>(
    alloc: Global,
    action: Action,
    side: Side,
    wires: &mut Link,
    a: &mut Port,
    b: &mut Port,
    watch: &mut W,
) -> Result<Acted, LinkEnd>
    requires some { AsksForSome action }
    requires sound { IsSoundLink (link wires.old a.old b.old) }
    ensures acts { Acts W.grew W.cut (part_of side action) (link wires.old a.old b.old) watch.old
        result (link wires.new a.new b.new) watch.new }
    ensures answer { IfOk result (λ answer. answer
        ≡ answer_of side action (link wires.old a.old b.old)) }
{
    match action {
        Action::Pump(turns) => {
            wires.pump(alloc, side, turns, a, b, watch)?;
            Ok(Acted::Done)
        }
        Action::Deliver(count) => match wires.deliver(alloc, side, count, a, b, watch)? {
            Edited::Done => Ok(Acted::Done),
            Edited::Short => Ok(Acted::Short),
        },
        Action::TimeOut => match wires.time_out(alloc, side, a, b, watch)? {
            Fired::Done => Ok(Acted::Done),
            Fired::Early => Ok(Acted::Early),
        },
        Action::Settle => {
            wires.settle(alloc, a, b, watch)?;
            Ok(Acted::Done)
        }
    }
}

/// Writes what is not there, if nothing was done.
pub(crate) fn write_lack<K: Sink>(writer: &mut TraceWriter<K>, answer: Acted)
    ensures { Adds writer.old writer.new (lack_lines answer) }
{
    match answer {
        Acted::Done => {}
        Acted::Short => writer.write_lack(Lack::Short),
        Acted::Early => writer.write_lack(Lack::Early),
    }
}

/// Why an event at the link of two ports ended. The watch that writes lines never fails.
fn ended(a: PortRef, b: PortRef, end: LinkEnd) -> FabricEnd
    ensures { result ≡ event_end a b end }
{
    match end {
        LinkEnd::Undetected(side, event) => FabricEnd::Undetected {
            port: port_at_side(a, b, side),
            event,
        },
        LinkEnd::Failed | LinkEnd::NoMemory => FabricEnd::NoMemory,
    }
}
