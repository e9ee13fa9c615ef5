//! What is known of the earlier lines.

ghost use Rattle.fabric_script.specs.declared.known.Mode.TheVariants.{Event};
ghost use Rattle.std.specs.Prelude.{◌≡◌, ◌≢◌, ◌+◌, ◌*◌, ◌^◌, ◌<◌, ◌≤◌, true, false, ◌∷◌, [], ◌++◌, Contains, length, MatchOption, MatchResult, IfOk, OnErr};
ghost use Rattle.fabric_script.specs.SetUps.{for_event, for_set_up};
ghost use Rattle.fabric_script.specs.Names.{is_name};
ghost use Rattle.fabric_script.specs.Lines.{words_of};
ghost use Rattle.fabric_script.specs.Reading.{Spells, new_name_in, second_word};
ghost use Rattle.fabric_script.specs.Forms.{NewName as ANewName, Node as ANode, Port as APort};
ghost use Rattle.fabric_script.specs.Texts.{Named, NodeValue, PortValue, value_text};
ghost use Rattle.fabric_script.specs.Hits.{FitsField, Hits};
ghost use Rattle.fabric_script.specs.Known.{nothing_in, ports_of, is_known_switch, has_this_id, has_id, has_large_id, large_ids_after, is_linked, cost_of, known_after};
ghost use Rattle.fabric_script.specs.declared.lines.Line.TheVariants.{Large as ALarge};

use crate::lines::Line;
use crate::links::Links;
use crate::names::{Name, PLACES, find, is_name, place_of};
use crate::ports::{PortRef, split_port};
use crate::reasons::Reason;
use crate::words::Words;
use std::alloc::{AllocError, Global};
use std::marker::Model;

/// Which lines may stand.
#[derive(Clone, Copy, Debug, PartialEq, Eq)]
pub(crate) enum Mode {
    /// Set-up lines, and events behind them.
    Script,
    /// Set-up lines alone.
    SetUp,
    /// One event, whatever it costs.
    Event,
}

/// What a node is.
#[derive(Clone, Copy, Debug, PartialEq, Eq)]
pub(crate) enum Node {
    /// An endpoint with this device ID.
    Endpoint { id: u8 },
    /// A switch with so many ports.
    Switch { ports: u8 },
}

/// What is known of the earlier lines.
#[derive(Drop)]
pub(crate) struct Known {
    names: Vec<Name>,
    /// At the place of each name's key its number, so that the name is found at once.
    hints: [u8; PLACES],
    nodes: Vec<Node>,
    links: Links,
    large_ids: Vec<(u8, u16)>,
    begun: bool,
    cost: u32,
    mode: Mode,
}

impl Model for Known {
    ghost use Rattle.std.specs.Prelude.{◌≡◌, ◌≤◌, length};
    ghost use Rattle.fabric_script.specs.Known.{Known};

    ghost Value = { Known };

    ghost view = { λ k. record {
      names = k.names.items;
      nodes = k.nodes.items;
      links = k.links;
      large_ids = k.large_ids.items;
      begun = k.begun;
      cost = k.cost;
      mode = k.mode;
    } };

    ghost invariant = { λ k. length k.names.items ≤ 64 };
}

impl Known {
    /// Before the first line.
    pub(crate) fn new(alloc: Global, mode: Mode) -> Known
        ensures { result ≡ nothing_in mode }
    {
        Known {
            names: Vec::new(alloc),
            hints: [0; PLACES],
            nodes: Vec::new(alloc),
            links: Links::new(alloc),
            large_ids: Vec::new(alloc),
            begun: false,
            cost: 0,
            mode,
        }
    }

    /// Adds a line, which a text spells after the earlier ones. If memory runs out, no name and no
    /// link is added.
    pub(crate) fn add(&mut self, line: &Line, text: &[u8]) -> Result<(), AllocError>
        requires spelled { Spells self.old text.now line.now }
        requires lines { self.old.mode ≢ Event }
        requires few { length self.old.links ≤ 33554432 }
        ensures added { IfOk result (λ _. self.new
            ≡ known_after self.old (new_name_in text.now line.now) line.now) }
        ensures names { OnErr result (self.new.names ≡ self.old.names) }
        ensures links { OnErr result (self.new.links ≡ self.old.links) }
    {
        self.cost += self.cost_of(line) as u32;
        self.begun = self.begun || line.is_event();
        match line {
            Line::Endpoint { id, .. } => self.add_node(text, Node::Endpoint { id: *id }),
            Line::Switch { ports, .. } => self.add_node(text, Node::Switch { ports: *ports }),
            Line::Link { a, b } => self.links.push(*a, *b),
            Line::Large { node, id } => self.set_large_id(*node, *id),
            _ => Ok(()),
        }
    }

    /// Adds a node, of which the second word of a text is the name.
    fn add_node(&mut self, text: &[u8], node: Node) -> Result<(), AllocError>
        requires named { is_name (second_word (words_of text.now)) ≡ true }
        requires room { length self.old.names < 64 }
        ensures added { IfOk result (λ _. self.new ≡ record self.old {
          names = self.old.names ++ second_word (words_of text.now) ∷ [];
          nodes = self.old.nodes ++ node ∷ [];
        }) }
        ensures names { OnErr result (self.new.names ≡ self.old.names) }
        ensures links { OnErr result (self.new.links ≡ self.old.links) }
    {
        let mut words = Words::new(text);
        words.word();
        let name = Name::of_word(words.word());
        self.hints[place_of(name.key())] = self.names.len() as u8;
        self.nodes.push(node)?;
        self.names.push(name)?;
        Ok(())
    }

    /// Notes the 16-bit device ID of a node, in the place of an earlier one.
    fn set_large_id(&mut self, node: u8, id: u16) -> Result<(), AllocError>
        ensures noted { IfOk result (λ _. self.new ≡ record self.old {
          large_ids = large_ids_after self.old.large_ids (ALarge node id);
        }) }
        ensures names { OnErr result (self.new.names ≡ self.old.names) }
        ensures links { OnErr result (self.new.links ≡ self.old.links) }
    {
        self.large_ids.retain(|pair| pair.0 != node);
        self.large_ids.push((node, id))?;
        Ok(())
    }

    /// The names of the nodes.
    pub(crate) fn into_names(self) -> Vec<Name>
        ensures { result.items ≡ self.names }
    {
        self.names
    }

    /// The names of the nodes, in the order of their lines.
    pub(crate) fn names(&self) -> &[Name]
        ensures { result.now ≡ self.now.names }
    {
        self.names.as_slice()
    }

    /// The number of the next node.
    pub(crate) fn next_node(&self) -> u8
        ensures { result ≡ length self.now.names }
    {
        self.names.len() as u8
    }

    /// The name that a word gives a new node.
    pub(crate) fn read_new_name(&self, word: &[u8]) -> Result<Name, Reason>
        ensures { MatchResult result
            (λ name. FitsField self.now ANewName (Named name)
            × (word.now ≡ value_text self.now.names (Named name)))
            (λ reason. Hits self.now reason ANewName word.now) }
    {
        if !is_name(word) {
            return Err(Reason::BadName);
        }
        match find(self.names.as_slice(), &self.hints, word) {
            Some(_) => Err(Reason::NameTaken),
            None => Ok(Name::of_word(word)),
        }
    }

    /// The number of the node that a word names.
    pub(crate) fn read_node(&self, word: &[u8]) -> Result<u8, Reason>
        ensures { MatchResult result
            (λ n. FitsField self.now ANode (NodeValue n)
            × (word.now ≡ value_text self.now.names (NodeValue n)))
            (λ reason. Hits self.now reason ANode word.now) }
    {
        if !is_name(word) {
            return Err(Reason::BadName);
        }
        match find(self.names.as_slice(), &self.hints, word) {
            Some(n) => Ok(n),
            None => Err(Reason::UnknownNode),
        }
    }

    /// The port that a word names.
    pub(crate) fn read_port(&self, word: &[u8]) -> Result<PortRef, Reason>
        ensures { MatchResult result
            (λ p. FitsField self.now APort (PortValue p)
            × (word.now ≡ value_text self.now.names (PortValue p)))
            (λ reason. Hits self.now reason APort word.now) }
    {
        let Some((name, port)) = split_port(word) else {
            return Err(Reason::BadName);
        };
        let Some(node) = find(self.names.as_slice(), &self.hints, name) else {
            return Err(Reason::UnknownNode);
        };
        if port >= self.ports_of(node) {
            return Err(Reason::PortOutside);
        }
        Ok(PortRef { node, port })
    }

    /// How many ports a node has.
    pub(crate) fn ports_of(&self, node: u8) -> u8
        ensures { result ≡ ports_of self.now.nodes node }
    {
        match self.nodes.get(usize::from(node)) {
            Some(Node::Endpoint { .. }) => 1,
            Some(Node::Switch { ports }) => *ports,
            None => 0,
        }
    }

    /// Whether a node is a switch.
    pub(crate) fn is_switch(&self, node: u8) -> bool
        ensures { result ≡ is_known_switch self.now.nodes node }
    {
        match self.nodes.get(usize::from(node)) {
            Some(Node::Switch { .. }) => true,
            Some(Node::Endpoint { .. }) | None => false,
        }
    }

    /// Whether an endpoint has this device ID.
    pub(crate) fn has_id(&self, id: u8) -> bool
        ensures { result ≡ has_id self.now.nodes id }
    {
        self.nodes.iter().any(|node| has_this_id(id, *node))
    }

    /// Whether another node has this 16-bit device ID.
    pub(crate) fn has_large_id(&self, node: u8, id: u16) -> bool
        ensures { result ≡ has_large_id self.now.large_ids node id }
    {
        self.large_ids
            .iter()
            .any(|pair| pair.0 != node && pair.1 == id)
    }

    /// Whether a port has a link.
    pub(crate) fn is_linked(&self, port: PortRef) -> bool
        ensures { result ≡ is_linked self.now.links port }
    {
        self.links.is_linked(port)
    }

    /// How many nodes there are.
    pub(crate) fn count(&self) -> usize
        ensures { result ≡ length self.now.names }
    {
        self.names.len()
    }

    /// Whether an event has come.
    pub(crate) fn begun(&self) -> bool
        ensures { result ≡ self.now.begun }
    {
        self.begun
    }

    /// One event alone may stand from now on.
    pub(crate) fn expect_event(&mut self)
        ensures { self.new ≡ for_event self.old }
    {
        self.mode = Mode::Event;
    }

    /// Set-up lines alone may stand from now on.
    pub(crate) fn expect_set_up(&mut self)
        ensures { self.new ≡ for_set_up self.old }
    {
        self.mode = Mode::SetUp;
    }

    /// Which lines may stand.
    pub(crate) fn mode(&self) -> Mode
        ensures { result ≡ self.now.mode }
    {
        self.mode
    }

    /// What the events have cost.
    pub(crate) fn cost(&self) -> u32
        ensures { result ≡ self.now.cost }
    {
        self.cost
    }

    /// What a line costs.
    pub(crate) fn cost_of(&self, line: &Line) -> u64
        requires { length self.now.links ≤ 33554432 }
        ensures cost { result ≡ cost_of self.now.links line.now }
        ensures fits { result < 2 ^ 63 }
    {
        match line {
            Line::Pump { n, .. } | Line::Deliver { n, .. } => u64::from(*n),
            Line::Settle { .. } => 20,
            Line::Run { n } => 20 * u64::from(*n) * self.links.len().max(1) as u64,
            _ => u64::from(line.is_event()),
        }
    }
}

/// Whether a node is an endpoint of this device ID.
fn has_this_id(id: u8, node: Node) -> bool
    ensures { result ≡ has_this_id id node }
{
    match node {
        Node::Endpoint { id: other } => other == id,
        Node::Switch { .. } => false,
    }
}
