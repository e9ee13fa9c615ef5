//! What each form wants of the words behind its keyword: the one table for reading and for advice.

ghost use Rattle.std.specs.Prelude.{◌≡◌, ◌≤◌, All, length};
ghost use Rattle.fabric_script.specs.Forms.{fields_of, IsShort};

use crate::forms::Form;

/// What a word of a line is to be.
#[derive(Clone, Copy, Debug)]
pub enum Field {
    /// The name of a new node.
    NewName,
    /// The name of a node.
    Node,
    /// A port.
    Port,
    /// A number of a range with both its ends.
    Number(u32, u32),
    /// Bytes in hexadecimal digits.
    Hex,
    /// A number in so many hexadecimal digits.
    Digits(u8),
    /// A character.
    Character,
}

/// Any number of a byte.
const BYTE: Field = Field::Number(0, 255);

/// Any number of 16 bits.
const HALF: Field = Field::Number(0, 65_535);

/// A destination ID of a switch's table.
const ENTRY: Field = Field::Number(0, 1023);

/// A priority.
const PRIO: Field = Field::Number(0, 3);

/// A format type.
const FTYPE: Field = Field::Number(0, 15);

/// The offset of a register.
const OFFSET: Field = Field::Digits(6);

/// What a register is to hold.
const VALUE: Field = Field::Digits(8);

/// A count of turns, characters or rounds.
const COUNT: Field = Field::Number(1, 100_000);

/// A place on a wire.
const PLACE: Field = Field::Number(0, 100_000);

impl Form {
    /// What the words behind the keyword are to be.
    pub(crate) fn fields(self) -> &'static [Field]
        ensures fields { result.now ≡ fields_of self }
        ensures few { length result.now ≤ 7 }
        ensures short { All IsShort result.now }
    {
        match self {
            Form::Endpoint => &[Field::NewName, BYTE],
            Form::Switch => &[Field::NewName, Field::Number(2, 16)],
            Form::Link => &[Field::Port, Field::Port],
            Form::Buffers => &[Field::Port, Field::Number(4, 30)],
            Form::Route => &[Field::Node, ENTRY, BYTE],
            Form::Default => &[Field::Node, BYTE],
            Form::Lock | Form::Large => &[Field::Node, HALF],
            Form::Send => &[Field::Node, PRIO, FTYPE, BYTE, Field::Hex],
            Form::Read => &[Field::Node, PRIO, BYTE, BYTE, BYTE, OFFSET],
            Form::Write => &[Field::Node, PRIO, BYTE, BYTE, BYTE, OFFSET, VALUE],
            Form::Send16 => &[Field::Node, PRIO, FTYPE, HALF, Field::Hex],
            Form::Read16 => &[Field::Node, PRIO, HALF, BYTE, BYTE, OFFSET],
            Form::Write16 => &[Field::Node, PRIO, HALF, BYTE, BYTE, OFFSET, VALUE],
            Form::Pump | Form::Deliver => &[Field::Port, COUNT],
            Form::Alter | Form::Insert => &[Field::Port, PLACE, Field::Character],
            Form::Erase => &[Field::Port, PLACE, COUNT],
            Form::Credits | Form::Timeout | Form::Settle => &[Field::Port],
            Form::Move | Form::Collect => &[Field::Node],
            Form::Run => &[COUNT],
        }
    }
}
