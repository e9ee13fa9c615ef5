//! A line from the words behind its keyword.

ghost use Rattle.std.specs.Prelude.{◌≡◌, ℕ, true, IfOk, length, slice_get};
ghost use Rattle.fabric_script.specs.Forms.{fields_of};
ghost use Rattle.fabric_script.specs.LineWords.{line_saying, gives_small, gives_large, gives_none};
ghost use Rattle.fabric_script.specs.Values.{AreWithin};
ghost use Rattle.fabric_script.specs.Words.{TakesAll};

use crate::forms::Form;
use crate::known::Known;
use crate::lines::Line;
use crate::values::{Value, Values, char_said, node_said, number_said, port_said, take_bytes};
use crate::words::Words;
use std::alloc::{AllocError, Global};

/// What the words of a form say. Where a reason hits one of them, the least is noted.
pub(crate) fn take_words(
    alloc: Global,
    form: Form,
    words: &mut Words,
    known: &Known,
) -> Result<Values, AllocError>
    ensures { IfOk result (λ values.
        TakesAll known.now (fields_of form) values.items words.old words.new) }
{
    let mut values = Values::new();
    for field in form.fields() {
        values.push(words.take(alloc, *field, known)?);
    }
    Ok(values)
}

/// The line of a form whose words say this.
pub(crate) fn line_saying(alloc: Global, form: Form, values: &mut [Value], known: &Known) -> Line
    requires { AreWithin (fields_of form) (slice_get values.old) }
    ensures { result ≡ line_saying form (length known.now.names) values.old }
{
    let name = known.next_node();
    let node = node_said(values, 0);
    let port = port_said(values, 0);
    let n = number_said(values, 1);
    match form {
        Form::Endpoint => Line::Endpoint { name, id: n as u8 },
        Form::Switch => Line::Switch {
            name,
            ports: n as u8,
        },
        Form::Link => Line::Link {
            a: port,
            b: port_said(values, 1),
        },
        Form::Buffers => Line::Buffers { port, n: n as u8 },
        Form::Route => Line::Route {
            node,
            id: n as u16,
            p: number_said(values, 2) as u8,
        },
        Form::Default => Line::Default { node, p: n as u8 },
        Form::Lock => Line::Lock { node, id: n as u16 },
        Form::Large => Line::Large { node, id: n as u16 },
        Form::Credits => Line::Credits { port },
        Form::Send | Form::Read | Form::Write => packet_line(alloc, form, values),
        Form::Send16 | Form::Read16 | Form::Write16 => large_packet_line(alloc, form, values),
        _ => event_line(form, values),
    }
}

/// The line of a form of an event that gives no packet.
fn event_line(form: Form, values: &[Value]) -> Line
    requires { gives_none form ≡ true }
    ensures { (new : ℕ) → result ≡ line_saying form new values.now }
{
    let node = node_said(values, 0);
    let port = port_said(values, 0);
    let n = number_said(values, 1);
    match form {
        Form::Pump => Line::Pump { port, n },
        Form::Deliver => Line::Deliver { port, n },
        Form::Alter => Line::Alter {
            port,
            place: n,
            ch: char_said(values, 2),
        },
        Form::Insert => Line::Insert {
            port,
            place: n,
            ch: char_said(values, 2),
        },
        Form::Erase => Line::Erase {
            port,
            place: n,
            n: number_said(values, 2),
        },
        Form::Timeout => Line::Timeout { port },
        Form::Settle => Line::Settle { port },
        Form::Move => Line::Move { node },
        Form::Collect => Line::Collect { node },
        _ => Line::Run {
            n: number_said(values, 0),
        },
    }
}

/// The line of a form that gives an endpoint a packet with 8-bit IDs.
fn packet_line(alloc: Global, form: Form, values: &mut [Value]) -> Line
    requires within { AreWithin (fields_of form) (slice_get values.old) }
    requires packet { gives_small form ≡ true }
    ensures { (new : ℕ) → result ≡ line_saying form new values.old }
{
    let node = node_said(values, 0);
    let prio = number_said(values, 1) as u8;
    match form {
        Form::Send => Line::Send {
            node,
            prio,
            ftype: number_said(values, 2) as u8,
            dest: number_said(values, 3) as u8,
            hex: take_bytes(alloc, values, 4),
        },
        Form::Read => Line::Read {
            node,
            prio,
            dest: number_said(values, 2) as u8,
            hop: number_said(values, 3) as u8,
            tid: number_said(values, 4) as u8,
            offset: number_said(values, 5),
        },
        _ => Line::Write {
            node,
            prio,
            dest: number_said(values, 2) as u8,
            hop: number_said(values, 3) as u8,
            tid: number_said(values, 4) as u8,
            offset: number_said(values, 5),
            value: number_said(values, 6),
        },
    }
}

/// The line of a form that gives an endpoint a packet with 16-bit IDs.
fn large_packet_line(alloc: Global, form: Form, values: &mut [Value]) -> Line
    requires within { AreWithin (fields_of form) (slice_get values.old) }
    requires packet { gives_large form ≡ true }
    ensures { (new : ℕ) → result ≡ line_saying form new values.old }
{
    let node = node_said(values, 0);
    let prio = number_said(values, 1) as u8;
    match form {
        Form::Send16 => Line::Send16 {
            node,
            prio,
            ftype: number_said(values, 2) as u8,
            dest: number_said(values, 3) as u16,
            hex: take_bytes(alloc, values, 4),
        },
        Form::Read16 => Line::Read16 {
            node,
            prio,
            dest: number_said(values, 2) as u16,
            hop: number_said(values, 3) as u8,
            tid: number_said(values, 4) as u8,
            offset: number_said(values, 5),
        },
        _ => Line::Write16 {
            node,
            prio,
            dest: number_said(values, 2) as u16,
            hop: number_said(values, 3) as u8,
            tid: number_said(values, 4) as u8,
            offset: number_said(values, 5),
            value: number_said(values, 6),
        },
    }
}
