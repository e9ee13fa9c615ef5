//! The lines of a script as values.

use crate::forms::Form;
use crate::hex::Hex;
use crate::names::Name;
use crate::ports::PortRef;
use rio_chars::Char;

/// One line of a script. A node is its number, in the order of the nodes' lines.
#[derive(Debug, Drop)]
pub enum Line {
    /// An endpoint and its base device ID; 255 means that it is not numbered.
    Endpoint {
        name: u8,
        id: u8,
    },
    /// A switch and how many ports it has, 2 to 16.
    Switch {
        name: u8,
        ports: u8,
    },
    /// A link between two ports. The first is the side that acts first when the link settles.
    Link {
        a: PortRef,
        b: PortRef,
    },
    /// How many receive buffers a port has, 4 to 30.
    Buffers {
        port: PortRef,
        n: u8,
    },
    /// A switch sends packets of this destination ID, 0 to 1,023, to this port; 255 is no port.
    Route {
        node: u8,
        id: u16,
        p: u8,
    },
    /// A switch sends packets without a route to this port; 255 is no port.
    Default {
        node: u8,
        p: u8,
    },
    /// The host lock of a node.
    Lock {
        node: u8,
        id: u16,
    },
    /// The 16-bit device ID of an endpoint, in the place of an earlier one; 65,535 means that it
    /// has none.
    Large {
        node: u8,
        id: u16,
    },
    /// A port tells its peer how many of its receive buffers are free.
    Credits {
        port: PortRef,
    },
    /// A packet is given to an endpoint: its priority, 0 to 3, its format type, 0 to 15, its
    /// destination ID, and what follows the source ID in its body.
    Send {
        node: u8,
        prio: u8,
        ftype: u8,
        dest: u8,
        hex: Hex,
    },
    /// A maintenance read of a register is given to an endpoint. The offset has 24 bits.
    Read {
        node: u8,
        prio: u8,
        dest: u8,
        hop: u8,
        tid: u8,
        offset: u32,
    },
    /// A maintenance write of a register is given to an endpoint.
    Write {
        node: u8,
        prio: u8,
        dest: u8,
        hop: u8,
        tid: u8,
        offset: u32,
        value: u32,
    },
    /// A packet with 16-bit device IDs is given to an endpoint, as by `Send`.
    Send16 {
        node: u8,
        prio: u8,
        ftype: u8,
        dest: u16,
        hex: Hex,
    },
    /// A maintenance read with 16-bit device IDs is given to an endpoint.
    Read16 {
        node: u8,
        prio: u8,
        dest: u16,
        hop: u8,
        tid: u8,
        offset: u32,
    },
    /// A maintenance write with 16-bit device IDs is given to an endpoint.
    Write16 {
        node: u8,
        prio: u8,
        dest: u16,
        hop: u8,
        tid: u8,
        offset: u32,
        value: u32,
    },
    /// A port takes so many turns to send, 1 to 100,000.
    Pump {
        port: PortRef,
        n: u32,
    },
    /// The peer takes so many characters of what the port has sent, 1 to 100,000.
    Deliver {
        port: PortRef,
        n: u32,
    },
    /// A character that the port has sent becomes another. A place is at most 100,000.
    Alter {
        port: PortRef,
        place: u32,
        ch: Char,
    },
    /// A character comes in before a place of what the port has sent.
    Insert {
        port: PortRef,
        place: u32,
        ch: Char,
    },
    /// So many characters are lost, from a place of what the port has sent on.
    Erase {
        port: PortRef,
        place: u32,
        n: u32,
    },
    /// The time-out of a port fires.
    Timeout {
        port: PortRef,
    },
    /// The link of a port carries what waits, both ways.
    Settle {
        port: PortRef,
    },
    /// A switch makes one step.
    Move {
        node: u8,
    },
    /// An endpoint gives out the packet that is next.
    Collect {
        node: u8,
    },
    /// Every link settles and every switch steps, so many times.
    Run {
        n: u32,
    },
}

impl Line {
    ghost use Rattle.std.specs.Prelude.{◌≡◌};
    ghost use Rattle.fabric_script.specs.Lines.{is_event};

    /// Whether the line is an event. The first nine kinds set the fabric up.
    pub fn is_event(&self) -> bool
        ensures { result ≡ is_event self.now }
    {
        !matches!(
            self,
            Line::Endpoint { .. }
                | Line::Switch { .. }
                | Line::Link { .. }
                | Line::Buffers { .. }
                | Line::Route { .. }
                | Line::Default { .. }
                | Line::Lock { .. }
                | Line::Large { .. }
                | Line::Credits { .. }
        )
    }
}

impl Line {
    ghost use Rattle.std.specs.Prelude.{◌≡◌};
    ghost use Rattle.fabric_script.specs.Lines.{form_of};

    /// The form of the line.
    pub(crate) fn form(&self) -> Form
        ensures { result ≡ form_of self.now }
    {
        match self {
            Line::Endpoint { .. } => Form::Endpoint,
            Line::Switch { .. } => Form::Switch,
            Line::Link { .. } => Form::Link,
            Line::Buffers { .. } => Form::Buffers,
            Line::Route { .. } => Form::Route,
            Line::Default { .. } => Form::Default,
            Line::Lock { .. } => Form::Lock,
            Line::Large { .. } => Form::Large,
            Line::Credits { .. } => Form::Credits,
            Line::Send { .. } => Form::Send,
            Line::Read { .. } => Form::Read,
            Line::Write { .. } => Form::Write,
            Line::Send16 { .. } => Form::Send16,
            Line::Read16 { .. } => Form::Read16,
            Line::Write16 { .. } => Form::Write16,
            Line::Pump { .. } => Form::Pump,
            Line::Deliver { .. } => Form::Deliver,
            Line::Alter { .. } => Form::Alter,
            Line::Insert { .. } => Form::Insert,
            Line::Erase { .. } => Form::Erase,
            Line::Timeout { .. } => Form::Timeout,
            Line::Settle { .. } => Form::Settle,
            Line::Move { .. } => Form::Move,
            Line::Collect { .. } => Form::Collect,
            Line::Run { .. } => Form::Run,
        }
    }
}

/// A line with its number in the script, counted from 1.
#[derive(Debug, Drop)]
pub struct Numbered {
    pub number: u32,
    pub line: Line,
}

/// The kept lines of a script, and the names of its nodes in the order of their lines.
#[derive(Debug, Drop)]
pub struct Script {
    pub names: Vec<Name>,
    pub lines: Vec<Numbered>,
}
