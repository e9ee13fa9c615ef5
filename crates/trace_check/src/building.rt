//! The plain network that lines of set-up make.

ghost use Rattle.std.specs.Prelude.{◌≡◌, ◌++◌, ℕ, false, [], ◌∷◌, length, IfOk};
ghost use Rattle.maint_registers.specs.Changes.{linked_at, with_device};
ghost use Rattle.fabric_model.specs.Network.{Network as ANetwork};
ghost use Rattle.fabric_trace.specs.Settings.{set_up, with_node};
ghost use Rattle.link_buffers.specs.Queues.{no_packets};
ghost use Rattle.trace_check.specs.Networks.{IsNetwork};
ghost use Rattle.trace_check.specs.Starting.{is_node, IsBegun, IsBuilt, lent_lists, MayStandBehind, MayBuild, net_of, nodes_of};
ghost use Rattle.trace_check.specs.Tables.{IsIn};

use crate::lanes::Lanes;
use crate::network::Network;
use crate::places::{PORTS, place_of};
use fabric_script::{Line, PortRef, SetUp};
use maint_registers::Registers;
use std::alloc::{AllocError, Global};
use std::collections::VecDeque;

/// How many receive buffers a port has if no line says how many.
const BUFFERS: u8 = 8;

impl Network {
    /// The network that set-up lines make.
    pub(crate) fn new(alloc: Global, set_up: &SetUp) -> Result<Network, AllocError>
        requires { IsBegun set_up.now }
        ensures { IfOk result (λ network.
            IsNetwork (nodes_of set_up.now) (net_of set_up.now) network) }
    {
        let mut network = Network {
            buffers: Vec::new(alloc),
            received: Vec::new(alloc),
            waiting: Vec::new(alloc),
            lent: Vec::new(alloc),
            registers: Vec::new(alloc),
        };
        for numbered in set_up.lines() {
            network.add(alloc, &numbered.line)?;
        }
        Ok(network)
    }

    /// Takes in a line of set-up.
    fn add(&mut self, alloc: Global, line: &Line) -> Result<(), AllocError>
        requires { MayBuild self.old line.now }
        ensures { IfOk result (λ _. (net : ANetwork) → IsBuilt net self.old
            → MayStandBehind net line.now
            → IsBuilt (set_up net line.now) self.new) }
    {
        match line {
            Line::Endpoint { id, .. } => self.add_node(alloc, Registers::endpoint(*id, false)),
            Line::Switch { ports, .. } => self.add_node(alloc, Registers::switch(*ports, 0)),
            _ => {
                self.set(line);
                Ok(())
            }
        }
    }

    /// One more node, with its ports.
    fn add_node(&mut self, alloc: Global, registers: Registers) -> Result<(), AllocError>
        ensures { IfOk result (λ _. (net : ANetwork) → IsBuilt net self.old
            → IsBuilt (with_node net registers) self.new) }
    {
        for _ in 0..PORTS {
            self.add_port(alloc)?;
        }
        self.registers.push(registers)?;
        Ok(())
    }

    /// One more port, which has no packet.
    fn add_port(&mut self, alloc: Global) -> Result<(), AllocError>
        ensures buffers { IfOk result (λ _. self.new.buffers.items
            ≡ self.old.buffers.items ++ 8 ∷ []) }
        ensures received { IfOk result (λ _. self.new.received.items
            ≡ self.old.received.items ++ no_packets ∷ []) }
        ensures waiting { IfOk result (λ _. self.new.waiting.items
            ≡ self.old.waiting.items ++ no_packets ∷ []) }
        ensures lent { IfOk result (λ _. lent_lists self.new ≡ lent_lists self.old ++ [] ∷ []) }
        ensures registers { self.new.registers ≡ self.old.registers }
    {
        self.buffers.push(BUFFERS)?;
        self.received.push(Lanes::new(alloc))?;
        self.waiting.push(Lanes::new(alloc))?;
        self.lent.push(VecDeque::new(alloc))?;
        Ok(())
    }

    /// Takes in a line that makes no node.
    fn set(&mut self, line: &Line)
        requires may { MayBuild self.old line.now }
        requires old { is_node line.now ≡ false }
        ensures { (net : ANetwork) → IsBuilt net self.old → MayStandBehind net line.now
            → IsBuilt (set_up net line.now) self.new }
    {
        match line {
            Line::Link { a, b } => {
                self.link(*a);
                self.link(*b);
            }
            Line::Buffers { port, n } => self.buffers[place_of(*port)] = *n,
            Line::Route { node, id, p } => self.registers[usize::from(*node)].set_route(*id, *p),
            Line::Default { node, p } => self.registers[usize::from(*node)].set_default(*p),
            Line::Lock { node, id } => self.registers[usize::from(*node)].set_lock(*id),
            Line::Large { node, id } => self.registers[usize::from(*node)].set_large(*id),
            _ => {}
        }
    }

    /// A port has a link.
    fn link(&mut self, port: PortRef)
        requires { IsIn (length self.old.registers.items) port }
        ensures registers { self.new.registers.items
            ≡ with_device self.old.registers.items port.node (linked_at port.port) }
        ensures rest { self.new ≡ record self.old { registers = self.new.registers } }
    {
        self.registers[usize::from(port.node)].set_linked(port.port);
    }
}
