//! What a fabric knows to have nothing to do, so that a round costs what it moves.
ghost use Rattle.std.specs.Prelude.{◌≡◌, ◌≢◌, ◌⊎◌, ◌+◌, ◌<◌, ℕ, false, length, replicate, IfOk};
ghost use Rattle.fabric_ports.specs.Idling.{IsMarkedAt, HasNumber, IsPassedAt, Wakes};

use maint_packets::Next;
use std::alloc::{AllocError, Global};
use switch_core::Going;

/// The links and the switches of which it is known that they have nothing to do. Each that is
/// marked has nothing to do; one that is not marked may have.
#[derive(Drop)]
pub(crate) struct Idle {
    /// By the number of a link.
    pub(crate) links: Vec<bool>,
    /// By the number of a device. An endpoint is never marked.
    pub(crate) switches: Vec<bool>,
}

impl Idle {
    /// So many links and devices, of which none is marked.
    pub(crate) fn new(alloc: Global, links: usize, devices: usize) -> Result<Idle, AllocError>
        ensures links { IfOk result (λ idle. idle.links.items ≡ replicate links false) }
        ensures switches { IfOk result (λ idle. idle.switches.items ≡ replicate devices false) }
    {
        Ok(Idle {
            links: vec![in alloc; false; links]?,
            switches: vec![in alloc; false; devices]?,
        })
    }

    /// Something is done at a link: it may have work, and so may the switches at its ends.
    pub(crate) fn wake_link(&mut self, link: usize, a: u8, b: u8)
        ensures { Wakes (λ k. k ≡ link) (λ node. (node ≡ a) ⊎ (node ≡ b)) self.old self.new }
    {
        clear(&mut self.links, link);
        clear(&mut self.switches, usize::from(a));
        clear(&mut self.switches, usize::from(b));
    }

    /// The packets of a port without a link have changed: the switch that has it may have work. Of
    /// an endpoint there is no mark.
    pub(crate) fn wake_switch(&mut self, node: u8)
        ensures { Wakes (λ _. ⊥) (λ n. n ≡ node) self.old self.new }
    {
        clear(&mut self.switches, usize::from(node));
    }

    /// The packets of a port have changed: its link may have work. The numbers of links stand by
    /// the places of ports.
    pub(crate) fn wake_port(&mut self, numbers: &[usize], place: usize)
        ensures { Wakes (HasNumber numbers.now (λ n. n ≡ place)) (λ _. ⊥) self.old self.new }
    {
        if let Some(number) = numbers.get(place) {
            clear(&mut self.links, *number);
        }
    }

    /// A packet of a switch has gone, whose ports stand in a row from a place on: the links of the
    /// port that it left and of the one to which it went may have work.
    pub(crate) fn wake_going(&mut self, numbers: &[usize], first: usize, going: Going)
        requires { (place : ℕ) → IsPassedAt first going place → place < 0x10000000000000000 }
        ensures { Wakes (HasNumber numbers.now (IsPassedAt first going)) (λ _. ⊥)
            self.old self.new }
    {
        self.wake_port(numbers, first + usize::from(going.port));
        if let Next::Port(to) = going.next {
            self.wake_port(numbers, first + usize::from(to));
        }
    }
}

/// Takes the mark at a place away, if there is one.
fn clear(marks: &mut Vec<bool>, place: usize)
    ensures marks { (k : ℕ) → IsMarkedAt marks.new.items k
        → IsMarkedAt marks.old.items k × (k ≢ place) }
    ensures many { length marks.new.items ≡ length marks.old.items }
{
    if place < marks.len() {
        marks[place] = false;
    }
}
