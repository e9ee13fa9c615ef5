//! Where a port's link stands, and the two ports that it joins.
ghost use Rattle.std.specs.Prelude.{◌≡◌, ◌≢◌, ◌<◌, length, slice_get, slice_set, map, Some};
ghost use Rattle.std.specs.Borrow.{sem, LendsBoth, Array};
ghost use Rattle.link_port.specs.contracts.port.Port.{the_row};
ghost use Rattle.fabric_ports.specs.Ends.{PortIsLinked, IsPlaceOf, side_in};
ghost use Rattle.fabric_ports.specs.Showing.{ends_of, ShowsFabric};
ghost use Rattle.fabric_script.specs.declared.ports.PortRef.{PortRef};
ghost use Rattle.fabric_trace.specs.Known.{Seen, link_at};
ghost use Rattle.link_law.specs.Resting.{has_no_work};

use crate::fabric::{Cable, Fabric};
use fabric_script::PortRef;
use link_port::Port;
use link_watch::Side;

/// Where a port's link stands, which end of it the port is, and where its two ports stand.
#[derive(Clone, Copy)]
pub(crate) struct LinkPlace {
    pub(crate) cable: usize,
    pub(crate) side: Side,
    pub(crate) a: usize,
    pub(crate) b: usize,
}

impl Fabric {
    /// Finds the link of a port.
    pub(crate) fn link_of(&self, port: PortRef) -> LinkPlace
        requires { PortIsLinked self.now port }
        ensures { IsPlaceOf self.now port result }
    {
        let number = self.cable_at[self.place(port)];
        let cable = &self.cables[number];
        LinkPlace {
            cable: number,
            side: side_of(cable, port),
            a: self.place(cable.a),
            b: self.place(cable.b),
        }
    }

    /// Whether the link at a place has nothing to do. If so, it is marked, and is not looked at
    /// again until something is done at it.
    #[inline(always)]
    pub(crate) fn is_still(&mut self, place: usize) -> bool
        requires shown { (s : Seen) × ShowsFabric self.old s }
        requires within { place < length self.old.cables.items }
        ensures shows { (s : Seen) → ShowsFabric self.old s → ShowsFabric self.new s }
        ensures still { (s : Seen) (a b : PortRef) → ShowsFabric self.old s
            → slice_get (map ends_of self.old.cables.items) place ≡ Some (a, b)
            → result ≡ has_no_work (link_at s a b) }
        ensures rest { self.new ≡ record self.old { idle = self.new.idle } }
    {
        if self.idle.links[place] {
            return true;
        }
        self.mark_if_idle(place)
    }

    /// Looks at the ports and wires of the link at a place, whether it has nothing to do. If so, it
    /// is marked.
    #[inline(never)]
    fn mark_if_idle(&mut self, place: usize) -> bool
        requires shown { (s : Seen) × ShowsFabric self.old s }
        requires within { place < length self.old.cables.items }
        ensures shows { (s : Seen) → ShowsFabric self.old s → ShowsFabric self.new s }
        ensures still { (s : Seen) (a b : PortRef) → ShowsFabric self.old s
            → slice_get (map ends_of self.old.cables.items) place ≡ Some (a, b)
            → result ≡ has_no_work (link_at s a b) }
        ensures rest { self.new ≡ record self.old { idle = self.new.idle } }
    {
        let idle = self.is_idle(place);
        self.idle.links[place] = idle;
        idle
    }

    /// Whether the link at a place has nothing to do, by its ports and wires.
    fn is_idle(&self, place: usize) -> bool
        requires shown { (s : Seen) × ShowsFabric self.now s }
        requires within { place < length self.now.cables.items }
        ensures { (s : Seen) (a b : PortRef) → ShowsFabric self.now s
            → slice_get (map ends_of self.now.cables.items) place ≡ Some (a, b)
            → result ≡ has_no_work (link_at s a b) }
    {
        let cable = &self.cables[place];
        let a = &self.ports[self.place(cable.a)];
        let b = &self.ports[self.place(cable.b)];
        cable.link.has_no_work(a, b)
    }
}

/// Which end of its link a port is.
fn side_of(cable: &Cable, port: PortRef) -> Side
    ensures { result ≡ side_in cable.now.a port }
{
    if cable.a == port { Side::A } else { Side::B }
}

/// Two ports, by where they stand.
pub(crate) fn two<'p>(ports: &'p mut [Port], i: usize, j: usize) -> (&'p mut Port, &'p mut Port)
    requires first { i < length ports.old }
    requires second { j < length ports.old }
    requires apart { i ≢ j }
    ensures* lends { sem 𝓛 (LendsBoth (Array the_row 0) the_row the_row ports.entry result
        (λ a b. slice_set (slice_set ports.old i a) j b)) }
    ensures first { slice_get ports.old i ≡ Some result.0.now }
    ensures second { slice_get ports.old j ≡ Some result.1.now }
{
    if i < j {
        let (low, high) = ports.split_at_mut(j);
        return (&mut low[i], &mut high[0]);
    }
    let (low, high) = ports.split_at_mut(i);
    (&mut high[0], &mut low[j])
}
