//! Rounds: the links settle, the switches step, and each endpoint has its turn.
ghost use Rattle.std.specs.Prelude.{◌≡◌, ◌<◌, false, [], ◌∷◌, List, length, map, slice_index_or, IfOk, OnOk, OnErr};
ghost use Rattle.rio_chars.specs.Written.{Outgoing};
ghost use Rattle.fabric_script.specs.declared.lines.Numbered.{Numbered as NumberedLine};
ghost use Rattle.fabric_ports.specs.declared.answers.Happened.TheVariants as Answers;
ghost use Rattle.io_rounds.specs.Tasks.{IoTask, Settle, Turn, Reply, Fetch};
ghost use Rattle.io_rounds.specs.Going.{IoState, endpoints_of};
ghost use Rattle.io_rounds.specs.Course.{CourseHolds, IoAt, IoStopped, IoDoes, IoStops, held_behind, tasks_on, node_turn};
ghost use Rattle.io_rounds.specs.Turns.{Underway, MayTurn, MaySend, TaskSent, HasTaken, CollectsOn};

use crate::course::Course;
use crate::requests::reply_of;
use crate::stations::{keep, meet_at, take_kept};
use crate::texts::write_left;
use fabric_ports::Happened;
use fabric_script::{Line, Name};
use rio_chars::{NoMemory, Outbox, Sink};
use rio_packets::Packet;
use std::alloc::Global;

impl Course<'_> {
    /// Makes a round: every link settles, every switch makes its steps, and then each endpoint has
    /// its turn, in the order of the nodes.
    pub(crate) fn round<K: Sink>(
        &mut self,
        alloc: Global,
        names: &[Name],
        output: &mut Outbox<K>,
    ) -> Result<(), NoMemory>
        requires { Underway names.now self.old }
        ensures done { OnOk result ((script : List NumberedLine) → IoDoes names.now script
            output.old self.old (Settle ∷ map Turn (endpoints_of script)) output.new self.new) }
        ensures ended { OnErr result ((script : List NumberedLine) → IoStops names.now script
            output.old self.old (Settle ∷ map Turn (endpoints_of script)) output.new) }
    {
        self.act(alloc, names, &Line::Run { n: 1 })?;
        for node in 0..self.switches.len() {
            self.turn_at(alloc, names, node, output)?;
        }
        Ok(())
    }

    /// A node has its turn, if it is an endpoint.
    fn turn_at<K: Sink>(
        &mut self,
        alloc: Global,
        names: &[Name],
        node: usize,
        output: &mut Outbox<K>,
    ) -> Result<(), NoMemory>
        requires way { Underway names.now self.old }
        requires within { node < length self.old.switches.items }
        ensures done { OnOk result ((script : List NumberedLine) → IoDoes names.now script
            output.old self.old (node_turn (slice_index_or self.old.switches.items node false) node)
            output.new self.new) }
        ensures ended { OnErr result ((script : List NumberedLine) → IoStops names.now script
            output.old self.old (node_turn (slice_index_or self.old.switches.items node false) node)
            output.new) }
    {
        if self.switches[node] {
            return Ok(());
        }
        self.turn(alloc, names, node as u8, output)
    }

    /// An endpoint has its turn: it sends the reply that it keeps, if it keeps one, and unless that
    /// has no room again, it collects.
    fn turn<K: Sink>(
        &mut self,
        alloc: Global,
        names: &[Name],
        node: u8,
        output: &mut Outbox<K>,
    ) -> Result<(), NoMemory>
        requires { MayTurn names.now self.old node }
        ensures done { OnOk result ((script : List NumberedLine) → IoDoes names.now script
            output.old self.old (Turn node ∷ []) output.new self.new) }
        ensures ended { OnErr result ((script : List NumberedLine) → IoStops names.now script
            output.old self.old (Turn node ∷ []) output.new) }
    {
        if self.resend(alloc, names, node)? {
            return self.take_all(alloc, names, node, output);
        }
        Ok(())
    }

    /// Sends the reply that a node keeps, if it keeps one, and answers whether the node collects.
    fn resend(&mut self, alloc: Global, names: &[Name], node: u8) -> Result<bool, NoMemory>
        requires { MayTurn names.now self.old node }
        ensures { IfOk result (λ more. (script : List NumberedLine) (s : IoState)
            (rest : List IoTask) → CourseHolds names.now script s.events s.trace s.stations self.old
            → s.tasks ≡ Turn node ∷ rest
            → TaskSent names.now script s node (tasks_on node more rest) self.new) }
    {
        match take_kept(&mut self.stations, node) {
            Some(line) => self.reply(alloc, names, node, line),
            None => Ok(true),
        }
    }

    /// Sends a reply, and answers whether there was room. A reply without room is kept.
    fn reply(
        &mut self,
        alloc: Global,
        names: &[Name],
        node: u8,
        line: Line,
    ) -> Result<bool, NoMemory>
        requires may { MaySend names.now self.old line }
        requires named { node < length names.now }
        ensures { IfOk result (λ more. (script : List NumberedLine) (s : IoState)
            (rest : List IoTask) → CourseHolds names.now script s.events s.trace s.stations self.old
            → s.tasks ≡ Reply node line ∷ rest
            → TaskSent names.now script s node (tasks_on node more rest) self.new) }
    {
        match self.act(alloc, names, &line)? {
            Happened::Took => Ok(true),
            _ => {
                keep(&mut self.stations, node, line);
                Ok(false)
            }
        }
    }

    /// Collects one packet after another, until none is held or a response has no room.
    fn take_all<K: Sink>(
        &mut self,
        alloc: Global,
        names: &[Name],
        node: u8,
        output: &mut Outbox<K>,
    ) -> Result<(), NoMemory>
        requires { MayTurn names.now self.old node }
        ensures done { OnOk result ((script : List NumberedLine) → IoDoes names.now script
            output.old self.old (Fetch node ∷ []) output.new self.new) }
        ensures ended { OnErr result ((script : List NumberedLine) → IoStops names.now script
            output.old self.old (Fetch node ∷ []) output.new) }
    {
        loop {
            if !self.take(alloc, names, node, output)? {
                return Ok(());
            }
        }
    }

    /// Collects a packet, serves it and sends the reply, and answers whether the node collects on.
    fn take<K: Sink>(
        &mut self,
        alloc: Global,
        names: &[Name],
        node: u8,
        output: &mut Outbox<K>,
    ) -> Result<bool, NoMemory>
        requires { MayTurn names.now self.old node }
        ensures done { IfOk result (λ more. (script : List NumberedLine) (begun : Outgoing)
            (first s : IoState) (rest : List IoTask) → IoAt begun output.old
            names.now script first s self.old → s.tasks ≡ Fetch node ∷ rest
            → CollectsOn begun output.new names.now script first node more rest
            (held_behind script s.trace node) self.new) }
        ensures ended { OnErr result ((script : List NumberedLine) → IoStops names.now script
            output.old self.old (Fetch node ∷ []) output.new) }
    {
        match self.act(alloc, names, &Line::Collect { node })? {
            Happened::Left(packet) => self.serve(alloc, names, node, &packet, output),
            Happened::Answered => Ok(true),
            _ => Ok(false),
        }
    }

    /// Serves a packet that left at a node, and sends the reply. Answers whether the node collects
    /// on.
    fn serve<K: Sink>(
        &mut self,
        alloc: Global,
        names: &[Name],
        node: u8,
        packet: &Packet,
        output: &mut Outbox<K>,
    ) -> Result<bool, NoMemory>
        requires { MayTurn names.now self.old node }
        ensures done { IfOk result (λ more. (script : List NumberedLine) (begun : Outgoing)
            (first s : IoState) (rest : List IoTask) → HasTaken begun output.old
            names.now script first s node rest (Answers.Left packet.now) self.old
            → CollectsOn begun output.new names.now script first node more rest
            (held_behind script s.trace node) self.new) }
        ensures ended { OnErr result ((script : List NumberedLine) (begun : Outgoing)
            (first s : IoState) (rest : List IoTask) → HasTaken begun output.old
            names.now script first s node rest (Answers.Left packet.now) self.old
            → IoStopped begun output.new names.now script first) }
    {
        let meeting = meet_at(&mut self.stations, node, packet);
        write_left(output, names, node, &meeting.met);
        match meeting.answer {
            None => Ok(true),
            Some(io) => {
                let line = reply_of(alloc, node, packet, &io)?;
                self.reply(alloc, names, node, line)
            }
        }
    }
}
