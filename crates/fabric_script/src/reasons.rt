//! Why a line is refused.

ghost use Rattle.std.specs.Prelude.{◌≡◌};
ghost use Rattle.fabric_script.specs.Reasons.{reason_number};

/// Why a line is refused. A line that several reasons hit is refused with the least.
#[derive(Clone, Copy, Debug, PartialEq, Eq)]
pub enum Reason {
    /// No form has its first word and its number of words.
    UnknownLine = 1,
    /// A number that is a word by itself is misspelled or outside its range.
    BadNumber = 2,
    /// A name, or a port, is misspelled; so is a port whose number is above 15.
    BadName = 3,
    /// A new node has the name of an earlier one.
    NameTaken = 4,
    /// No earlier line has a node of this name.
    UnknownNode = 5,
    /// The node has no such port.
    PortOutside = 6,
    /// A port of a link is that of an earlier link, or both are the same.
    PortTaken = 7,
    /// An endpoint has the device ID of an earlier one, or the 16-bit device ID of another.
    IdTaken = 8,
    /// Hexadecimal digits or a character are misspelled.
    BadHex = 9,
    /// A packet's data has a length that it may not have.
    BadLength = 10,
    /// The node is a switch where an endpoint is wanted, or the other way round.
    WrongKind = 11,
    /// A line that sets the fabric up stands behind an event.
    OutOfPlace = 12,
    /// The port has no link.
    NotLinked = 13,
    /// There are more than 64 nodes, or the events cost more than 100,000.
    TooMuchWork = 14,
}

impl Reason {
    /// The number by which a refusal names the reason.
    pub fn number(self) -> u8
        ensures { result ≡ reason_number self }
    {
        self as u8
    }
}
