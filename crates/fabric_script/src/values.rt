//! What the words of a line say.

ghost use Rattle.std.specs.Prelude.{◌≡◌};
ghost use Rattle.fabric_script.specs.Values.{node_said, port_said, number_said, bytes_said, char_said};

use crate::hex::Hex;
use crate::names::Name;
use crate::ports::PortRef;
use arrayvec::ArrayVec;
use rio_chars::Char;
use std::alloc::Global;
use std::mem;

/// What a word says.
#[derive(Debug, Drop)]
pub enum Value {
    /// The name of a new node.
    Named(Name),
    /// A node.
    Node(u8),
    /// A port.
    Port(PortRef),
    /// A number.
    Counted(u32),
    /// Bytes.
    Bytes(Hex),
    /// A number in so many hexadecimal digits.
    InDigits(u8, u32),
    /// A character.
    Code(Char),
}

impl Default for Value {
    fn default() -> Value {
        Value::Counted(0)
    }
}

/// What the words behind a keyword say.
pub(crate) type Values = ArrayVec<Value, 7>;

/// The node at a place.
pub(crate) fn node_said(values: &[Value], place: usize) -> u8
    ensures { result ≡ node_said values.now place }
{
    match values.get(place) {
        Some(Value::Node(node)) => *node,
        _ => 0,
    }
}

/// The port at a place.
pub(crate) fn port_said(values: &[Value], place: usize) -> PortRef
    ensures { result ≡ port_said values.now place }
{
    match values.get(place) {
        Some(Value::Port(port)) => *port,
        _ => PortRef { node: 0, port: 0 },
    }
}

/// The number at a place.
pub(crate) fn number_said(values: &[Value], place: usize) -> u32
    ensures { result ≡ number_said values.now place }
{
    match values.get(place) {
        Some(Value::Counted(n)) => *n,
        Some(Value::InDigits(_, n)) => *n,
        _ => 0,
    }
}

/// The bytes at a place, which are taken from there.
pub(crate) fn take_bytes(alloc: Global, values: &mut [Value], place: usize) -> Hex
    ensures { result ≡ bytes_said values.old place }
{
    let none = Hex::new(Vec::new(alloc));
    match values.get_mut(place) {
        Some(Value::Bytes(bytes)) => mem::replace(bytes, none),
        _ => none,
    }
}

/// The character at a place.
pub(crate) fn char_said(values: &[Value], place: usize) -> Char
    ensures { result ≡ char_said values.now place }
{
    match values.get(place) {
        Some(Value::Code(ch)) => *ch,
        _ => Char::Invalid,
    }
}
