//! Requests that no response answers, and what their lines show. The lines are counted by hand.
ghost use Rattle.std.specs.Prelude.{◌≤◌, length};

use fabric_ports::{AskEnd, Fabric, Quiet};
use fabric_script::parse_set_up;
use host_enumerate::find_host;
use maint_packets::{Op, Request, Response};
use rio_chars::MemSink;
use std::alloc::Global;
use std::process::Abort;
use std::test::Fail;

/// The first words of lines that are counted.
const WORDS: [&[u8]; 4] = [b"move ", b"answer ", b"drop ", b"leave "];

/// What H is answered that asks for the identity of the device to which a destination leads, after
/// so many hops, and the lines of this.
fn asked(
    alloc: Global,
    text: &[u8],
    dest: u8,
    hop: u8,
    sink: &mut MemSink,
) -> Result<Result<Response, AskEnd>, Fail>
    requires { length text.now ≤ 16777216 }
{
    let Ok(script) = parse_set_up(alloc, text) else {
        return Err(Fail::from("not parsed"));
    };
    let Ok(Ok(host)) = find_host(alloc, &script, b"H") else {
        return Err(Fail::from("no host"));
    };
    let Ok(mut fabric) = Fabric::new(alloc, &script) else {
        return Err(Fail::from("no memory"));
    };
    let request = Request {
        prio: 0,
        dest: u16::from(dest),
        source: 5,
        large: false,
        op: Op::Read,
        tid: 0,
        hop,
        offset: 0,
    };
    let names = script.names.as_slice();
    Ok(fabric.ask(alloc, names, host, &request, &mut Quiet, sink))
}

/// How many lines of a text begin with this word.
fn count(text: &[u8], word: &[u8]) -> usize {
    text.split(|byte| *byte == b'\n')
        .filter(|line| line.starts_with(word))
        .count()
}

/// No response comes, and so many packets were moved, answered, dropped and left.
fn is_unanswered(
    rt: &impl Abort,
    alloc: Global,
    text: &[u8],
    dest: u8,
    hop: u8,
    wanted: [usize; 4],
) -> Result<(), Fail>
    requires { length text.now ≤ 16777216 }
{
    let Ok(mut sink) = MemSink::new(alloc, 4_000_000, 65_536, Vec::new(alloc)) else {
        return Err(Fail::from("no memory"));
    };
    let Err(AskEnd::Unanswered) = asked(alloc, text, dest, hop, &mut sink)? else {
        return Err(Fail::from("answered"));
    };
    for (word, times) in WORDS.iter().zip(wanted.iter()) {
        assert!(rt; count(sink.written(), *word) == *times);
    }
    Ok(())
}

#[test]
fn a_request_without_an_entry_is_dropped(rt: HostRuntime) -> Result<(), Fail> {
    let text = b"endpoint H 5\nswitch S 3\nlink H.0 S.0\n";
    is_unanswered(&rt, rt.alloc(), text, 7, 255, [0, 0, 1, 0])
}

#[test]
fn a_request_waits_at_a_port_without_a_link(rt: HostRuntime) -> Result<(), Fail> {
    let text = b"endpoint H 5\nswitch S 3\nlink H.0 S.0\nroute S 7 1\n";
    is_unanswered(&rt, rt.alloc(), text, 7, 255, [1, 0, 0, 0])
}

/// The host answers its own request, and that is no response to it.
#[test]
fn a_request_comes_back_to_the_host(rt: HostRuntime) -> Result<(), Fail> {
    let text = b"endpoint H 5\nswitch S 3\nlink H.0 S.0\nroute S 7 0\n";
    is_unanswered(&rt, rt.alloc(), text, 7, 255, [1, 1, 0, 0])
}

#[test]
fn a_response_waits_at_a_port_without_a_link(rt: HostRuntime) -> Result<(), Fail> {
    let text = b"endpoint H 5\nendpoint A 7\nswitch S 3\nlink H.0 S.0\nlink A.0 S.1\n\
route S 7 1\nroute S 5 2\n";
    is_unanswered(&rt, rt.alloc(), text, 7, 255, [2, 1, 0, 0])
}

#[test]
fn a_response_leaves_at_another_endpoint(rt: HostRuntime) -> Result<(), Fail> {
    let text = b"endpoint H 5\nendpoint A 7\nendpoint B 8\nswitch S 3\n\
link H.0 S.0\nlink A.0 S.1\nlink B.0 S.2\nroute S 7 1\nroute S 5 2\n";
    is_unanswered(&rt, rt.alloc(), text, 7, 255, [2, 1, 0, 1])
}

/// The request goes to and fro until its hop count is 0, in 256 rounds, and so does the response.
#[test]
fn a_request_and_its_response_take_512_rounds(rt: HostRuntime) -> Result<(), Fail> {
    let text = b"endpoint H 5\nswitch S 2\nswitch T 2\nlink H.0 S.0\nlink S.1 T.0\n\
route S 7 1\nroute T 7 0\nroute S 5 1\nroute T 5 0\n";
    is_unanswered(&rt, rt.alloc(), text, 7, 255, [510, 1, 1, 0])
}
